// The gaps of rising numbers, which are packed in place of the numbers.
ghost use Rattle.std.specs.Prelude.{◌≡◌, ◌++◌, OnOk, OnErr};
ghost use Rattle.fts_pack.specs.Documents.{gaps, Rises};

use std::alloc::AllocError;

/// Appends the gaps of rising numbers: each number less `next`, then each less its predecessor, less 1. On `Err`
/// nothing was appended.
pub fn push_gaps(numbers: &mut Vec<u32>, next: u64, rising: &[u32]) -> Result<(), AllocError>
    requires { Rises next rising.now }
    ensures ok { OnOk result (numbers.new.items ≡ numbers.old.items ++ gaps next rising.now) }
    ensures err { OnErr result (numbers.new.items ≡ numbers.old.items) }
{
    numbers.reserve(rising.len())?;
    let mut next = next;
    for number in rising {
        numbers.push_reserved((u64::from(*number) - next) as u32);
        next = u64::from(*number) + 1;
    }
    Ok(())
}
