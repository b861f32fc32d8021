//! Amounts of money.
ghost use Rattle.std.specs.Prelude.{◌<◌, ◌^◌};

/// An amount in cents, 0 to 2^63 - 1.
#[derive(Clone, Copy, PartialEq, Eq, Debug)]
pub struct Cents {
    pub value: u64,
    ghost limit: { value < 2 ^ 63 },
}

impl Cents {
    /// The largest amount.
    pub const MOST: u64 = (1 << 63) - 1;
}
