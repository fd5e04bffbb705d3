// Up to 128 numbers packed in four lanes, so that four numbers, one of each lane, are unpacked at a time.
ghost use Rattle.std.specs.Prelude.{◌≡◌, ◌≢◌, ℕ, ◌+◌, ◌-◌, ◌*◌, ◌/◌, ◌%◌, ◌^◌, ◌<◌, ◌≤◌, ◌++◌, All, OnErr, OnOk};
ghost use Rattle.std.specs.Prelude.{length, replicate, slice_index};
ghost use Rattle.fts_pack.specs.bits.Digits.{words_of};
ghost use Rattle.fts_pack.specs.FourLanes.{lane_of, numbers_in_lanes, words_in_lanes};
ghost use Rattle.fts_pack.specs.Unpacked.{IsUnpacked};

use std::alloc::AllocError;
use std::simd::u32x4;

/// The number at the index, or 0 past the last.
fn number_at(numbers: &[u32], index: usize) -> u32
    ensures { result ≡ slice_index numbers.now index }
{
    numbers.get(index).copied().unwrap_or(0)
}

/// Packs the numbers of one lane and writes its words among those of the four lanes.
fn write_lane(numbers: &[u32], lane: usize, width: u32, out: &mut [u32; 128])
    requires one_of_four { lane < 4 }
    requires narrow { width ≤ 32 }
    requires fits { All (λ x. x < 2 ^ width) numbers.now }
    ensures words { lane_of width lane out.new ≡ words_of 32 width (lane_of 32 lane numbers.now) }
    ensures others { (i : ℕ) → i % 4 ≢ lane → slice_index out.new i ≡ slice_index out.old i }
{
    let mut pending = 0u64;
    let mut filled = 0u32;
    let mut count = 0;
    for place in 0..32usize {
        pending |= u64::from(number_at(numbers, 4 * place + lane)) << filled;
        filled += width;
        if filled >= 32 {
            out[4 * count + lane] = (pending & 0xffff_ffff) as u32;
            count += 1;
            pending >>= 32;
            filled -= 32;
        }
    }
}

/// Appends the words of up to 128 numbers, each of which has at most `width` bits. On `Err` nothing was appended.
pub(crate) fn append(words: &mut Vec<u32>, width: u32, numbers: &[u32]) -> Result<(), AllocError>
    requires narrow { width ≤ 32 }
    requires fits { All (λ x. x < 2 ^ width) numbers.now }
    ensures ok { OnOk result (words.new.items ≡ words.old.items ++ words_in_lanes width numbers.now) }
    ensures err { OnErr result (words.new.items ≡ words.old.items) }
{
    let mut lanes = [0; 128];
    for lane in 0..4 {
        write_lane(numbers, lane, width, &mut lanes);
    }
    words.extend_from_slice(&lanes[..4 * width as usize])?;
    Ok(())
}

#[inline(always)]
fn mask_of(width: u32) -> u32
    requires { width ≤ 32 }
    ensures { result ≡ 2 ^ width - 1 }
{
    ((1u64 << width) - 1) as u32
}

/// Four consecutive elements of the list, one of each lane: elements `4 * row` to `4 * row + 3`.
#[inline(always)]
pub(crate) fn load(list: &[u32], row: usize) -> u32x4
    requires { 4 * row + 4 ≤ length list.now }
    ensures { (lane : ℕ) → lane < 4
        → slice_index result lane ≡ slice_index list.now (4 * row + lane) }
{
    u32x4::from_slice(&list[4 * row..])
}

/// The `width` bits of each lane from bit `shift`.
#[inline(always)]
fn within(low: u32x4, shift: u32, width: u32) -> u32x4
    requires short { shift < 32 }
    requires narrow { width ≤ 32 }
    ensures { (lane : ℕ) → lane < 4
        → slice_index result lane ≡ slice_index low lane / 2 ^ shift % 2 ^ width }
{
    low >> u32x4::splat(shift) & u32x4::splat(mask_of(width))
}

/// As `within`, for a number whose bits continue in the lane's next word.
#[inline(always)]
fn across(low: u32x4, high: u32x4, shift: u32, width: u32) -> u32x4
    requires some { 0 < shift }
    requires short { shift < 32 }
    requires narrow { width ≤ 32 }
    ensures { (lane : ℕ) → lane < 4
        → slice_index result lane
        ≡ (slice_index high lane * 2 ^ 32 + slice_index low lane) / 2 ^ shift % 2 ^ width }
{
    let both = low >> u32x4::splat(shift) | high << u32x4::splat(32 - shift);
    both & u32x4::splat(mask_of(width))
}

/// The four numbers at one index of the lanes.
#[inline(always)]
fn at_place(words: &[u32], width: u32, place: usize) -> u32x4
    requires narrow { width ≤ 32 }
    requires some { 0 < width }
    requires near { place < 32 }
    requires room { 4 * width ≤ length words.now }
    ensures { (lane : ℕ) → lane < 4
        → slice_index result lane
        ≡ slice_index (numbers_in_lanes width words.now) (4 * place + lane) }
{
    let bit = place * width as usize;
    let word = bit / 32;
    let shift = (bit % 32) as u32;
    let low = load(words, word);
    if shift + width <= 32 {
        return within(low, shift, width);
    }
    across(low, load(words, word + 1), shift, width)
}

/// The number at `index` of 128 packed numbers of `width` bits. Only its lane is read.
#[inline]
pub(crate) fn read(words: &[u32], width: u32, index: usize) -> u32
    requires narrow { width ≤ 32 }
    requires near { index < 128 }
    requires room { 4 * width ≤ length words.now }
    ensures { result ≡ slice_index (numbers_in_lanes width words.now) index }
{
    let block = &words[..4 * width as usize];
    let bit = index / 4 * width as usize;
    let place = 4 * (bit / 32) + index % 4;
    let low = block.get(place).copied().unwrap_or(0);
    let high = block.get(place + 4).copied().unwrap_or(0);
    let pair = u64::from(high) << 32 | u64::from(low);
    ((pair >> (bit % 32)) & ((1 << width) - 1)) as u32
}

#[inline(always)]
fn step(words: &[u32], width: u32, place: usize, out: &mut [u32; 128])
    requires narrow { width ≤ 32 }
    requires some { 0 < width }
    requires near { place < 32 }
    requires room { 4 * width ≤ length words.now }
    requires before { IsUnpacked width words.now (4 * place) out.old }
    ensures { IsUnpacked width words.now (4 * place + 4) out.new }
{
    at_place(words, width, place).copy_to_slice(&mut out[4 * place..]);
}

/// The steps are written out, since LLVM doesn't unroll a loop over them.
#[inline(always)]
fn eight_steps(words: &[u32], width: u32, place: usize, out: &mut [u32; 128])
    requires narrow { width ≤ 32 }
    requires some { 0 < width }
    requires near { place ≤ 24 }
    requires room { 4 * width ≤ length words.now }
    requires before { IsUnpacked width words.now (4 * place) out.old }
    ensures { IsUnpacked width words.now (4 * place + 32) out.new }
{
    step(words, width, place, out);
    step(words, width, place + 1, out);
    step(words, width, place + 2, out);
    step(words, width, place + 3, out);
    step(words, width, place + 4, out);
    step(words, width, place + 5, out);
    step(words, width, place + 6, out);
    step(words, width, place + 7, out);
}

/// The width is a constant at compile time, so each shift is a constant and no step has a branch.
#[inline(never)]
fn unpack_at<const W: u32>(words: &[u32], out: &mut [u32; 128])
    requires narrow { W ≤ 32 }
    requires some { 0 < W }
    requires room { 4 * W ≤ length words.now }
    ensures { out.new ≡ numbers_in_lanes W words.now }
{
    eight_steps(words, W, 0, out);
    eight_steps(words, W, 8, out);
    eight_steps(words, W, 16, out);
    eight_steps(words, W, 24, out);
}

fn clear(out: &mut [u32; 128])
    ensures { out.new ≡ replicate 128 0 }
{
    *out = [0; 128];
}

macro_rules! unpack_at_one_of {
    ($($w:literal)+; $width:expr, $words:expr, $out:expr) => {
        match $width {
            $($w => unpack_at::<$w>($words, $out),)+
            _ => clear($out),
        }
    };
}

/// Unpacks the 128 numbers of `width` bits.
pub(crate) fn unpack(words: &[u32], width: u32, out: &mut [u32; 128])
    requires narrow { width ≤ 32 }
    requires room { 4 * width ≤ length words.now }
    ensures { out.new ≡ numbers_in_lanes width words.now }
{
    unpack_at_one_of!(
        1 2 3 4 5 6 7 8 9 10 11 12 13 14 15 16 17 18 19 20 21 22 23 24 25 26 27 28 29 30 31 32;
        width, words, out
    )
}
