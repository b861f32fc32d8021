//! Grades of noise.
ghost use Rattle.std.specs.Prelude.{◌≤◌};

/// A grade, 0 to 9.
#[derive(Clone, Copy, PartialEq, Eq, PartialOrd, Ord, Debug)]
pub struct Grade {
    pub value: u8,
    ghost limit: { value ≤ 9 },
}
