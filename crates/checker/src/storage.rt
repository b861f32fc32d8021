//! The memory that checking works in.
ghost use Rattle.std.specs.Prelude.{◌≡◌};
ghost use Rattle.checker.specs.Firsts.{Blank};

use crate::counts::UseCounts;
use crate::firsts::FirstLines;
use crate::walk::Walk;

/// The memory that checking works in. Between checks no wire has a line.
#[derive(Drop)]
pub struct CheckStorage {
    pub(crate) walk: Walk,
    pub(crate) counts: UseCounts,
    pub(crate) firsts: FirstLines,
    ghost blank: { Blank firsts.lines.items },
}
