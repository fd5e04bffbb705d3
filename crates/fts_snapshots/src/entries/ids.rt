// The numbers of segments, which are below 2^62.
ghost use Rattle.std.specs.Prelude.{◌≡◌, ◌≤◌, ◌+◌, ◌^◌, nat_lt};

/// The numbers of segments, stamps and rounds are below this limit.
pub const ID_LIMIT: u64 = 1 << 62;

/// Whether `count` numbers from `next` would exceed the limit.
pub(crate) fn are_used_up(next: u64, count: usize) -> bool
    requires { next ≤ 2 ^ 62 }
    ensures { result ≡ nat_lt (2 ^ 62) (next + count) }
{
    count as u64 > ID_LIMIT - next
}
