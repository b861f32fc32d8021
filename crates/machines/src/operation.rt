//! What machines do: the operations, and how a call is refused.
ghost use Rattle.std.specs.Prelude.{◌≡◌, Decides, nat_eq};
ghost use Rattle.std.specs.List.{IsDistinct};
ghost use Rattle.machines.specs.Operation.{numbers, Listed};

use terms::{Gate, Wire};

/// What an operation does: it grants a wire for a constant, or applies a gate.
#[derive(Clone, Copy, PartialEq, Eq, Debug)]
pub enum Action {
    Grant(bool),
    Gate(Gate),
}

/// The wires of an operation, in order.
#[derive(Clone, Copy, PartialEq, Eq, Debug)]
pub enum Operands {
    One(Wire),
    Two(Wire, Wire),
    Three(Wire, Wire, Wire),
}

/// An operation: what was done, and on which wires. A grant has the wire that was granted.
#[derive(Clone, Copy, PartialEq, Eq, Debug)]
pub struct Operation {
    pub action: Action,
    pub operands: Operands,
}

/// A grant is refused: the machine holds as many wires, or has made as many operations, as it takes.
#[derive(Clone, Copy, PartialEq, Eq, Debug)]
pub struct Full;

/// Why a gate is refused.
#[derive(Clone, Copy, PartialEq, Eq, Debug)]
pub enum GateRefusal {
    /// The machine has made as many operations as it takes.
    Full,
    /// The wires are not as many as the gate's width, two are the same, or one is not held.
    Misnamed,
    /// The machine does not allow the gate on these wires.
    Forbidden,
}

impl From<Full> for GateRefusal {
    ghost use Rattle.machines.specs.declared.operation.GateRefusal.TheVariants.{Full as IsFull};

    ghost from_gives = { λ _ r. r ≡ IsFull };

    fn from(_full: Full) -> GateRefusal {
        GateRefusal::Full
    }
}

impl Operands {
    /// One, two or three wires as operands.
    // No `TryFrom`: `None` says all that an error could.
    pub fn of(wires: &[Wire]) -> Option<Operands>
        ensures { Listed wires.now result }
    {
        match *wires {
            [a] => Some(Operands::One(a)),
            [a, b] => Some(Operands::Two(a, b)),
            [a, b, c] => Some(Operands::Three(a, b, c)),
            _ => None,
        }
    }

    /// Whether no two of the wires are the same.
    #[tactic(auto, using(crate::proofs::Operands::one_distinct, crate::proofs::Operands::two_distinct, crate::proofs::Operands::three_distinct))]
    pub fn distinct(self) -> bool
        ensures { Decides result (IsDistinct nat_eq (numbers self)) }
    {
        match self {
            Operands::One(_) => true,
            Operands::Two(a, b) => a != b,
            Operands::Three(a, b, c) => (a != b) & (a != c) & (b != c),
        }
    }
}
