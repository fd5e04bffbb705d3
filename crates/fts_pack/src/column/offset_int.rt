// An unsigned integer of one of the widths of an offset array.
ghost use Rattle.std.specs.Prelude.{◌≡◌, ℕ, ◌^◌, ◌<◌};

/// An unsigned integer that stores an offset.
pub(crate) trait OffsetInt: Copy {
    /// The offset that it stores.
    ghost value: { Self → ℕ };

    /// The number of its bits.
    ghost bits: { ℕ };

    /// The integer that stores an offset.
    fn of(number: u64) -> Self
        requires { number < 2 ^ bits }
        ensures { value result ≡ number };

    /// The offset that it stores.
    fn number(self) -> u64
        ensures { result ≡ value self };
}

impl OffsetInt for u8 {
    ghost value = { λ x. x };

    ghost bits = { 8 };

    #[inline]
    fn of(number: u64) -> u8 {
        number as u8
    }

    #[inline]
    fn number(self) -> u64 {
        u64::from(self)
    }
}

impl OffsetInt for u64 {
    ghost value = { λ x. x };

    ghost bits = { 64 };

    #[inline]
    fn of(number: u64) -> u64 {
        number
    }

    #[inline]
    fn number(self) -> u64 {
        self
    }
}

impl OffsetInt for u32 {
    ghost value = { λ x. x };

    ghost bits = { 32 };

    #[inline]
    fn of(number: u64) -> u32 {
        number as u32
    }

    #[inline]
    fn number(self) -> u64 {
        u64::from(self)
    }
}
