//! What a gate machine is to those who drive it.
ghost use Rattle.std.specs.Prelude.{◌≡◌, true, List, [], ◌++◌, map, Decides};
ghost use Rattle.std.specs.List.{AllByRecursion};
ghost use Rattle.machines.specs.Machine.{Meaning, Lawful, Grants, Applies, grant_made, gate_made, Names};
ghost use Rattle.machines.specs.Operation.{Operation as Made, number, numbers};

use crate::operation::{Full, GateRefusal, Operands};
use terms::{Gate, Wire};

/// There are no more wires, so no machine takes more.
pub const MOST_WIRES: u16 = 4096;

/// The most operations that a machine can be made to take.
pub const MOST_OPERATIONS: u32 = 2_000_000;

/// A machine that grants wires and applies gates.
pub trait GateMachine {
    /// What the machine means.
    ghost meaning: { Self → Meaning };

    /// What is known besides its meaning of a machine that makes operations: `makes x os y` tells of x, of the operations
    /// os that it makes, and of y, which it then is.
    ghost makes: { Self → List Made → Self → Type 0 };

    /// Grants a wire for a constant.
    fn grant(&mut self, constant: bool) -> Result<Wire, Full>
        ensures grants { Grants constant result (meaning self.old) (meaning self.new) }
        ensures makes { makes self.old (grant_made constant result) self.new };

    /// Applies a gate to wires.
    fn apply(&mut self, gate: Gate, wires: &[Wire]) -> Result<(), GateRefusal>
        ensures applies { Applies gate (map number wires.now) result (meaning self.old) (meaning self.new) }
        ensures makes { makes self.old (gate_made gate (map number wires.now) result) self.new };

    /// Whether the machine holds the wire.
    fn holds(&self, wire: Wire) -> bool
        ensures { result ≡ (meaning self.now).held (number wire) };

    /// Whether it holds all of the wires.
    fn holds_all(&self, operands: Operands) -> bool
        ensures { Decides result (AllByRecursion (λ w. (meaning self.now).held w ≡ true) (numbers operands)) }
    {
        match operands {
            Operands::One(a) => self.holds(a),
            Operands::Two(a, b) => self.holds(a) & self.holds(b),
            Operands::Three(a, b, c) => self.holds(a) & self.holds(b) & self.holds(c),
        }
    }

    /// The wires as operands of the gate, if they are as many as its width, no two the same, and all held.
    fn named(&self, gate: Gate, wires: &[Wire]) -> Option<Operands>
        ensures { Names (meaning self.now) gate (map number wires.now) result }
    {
        if wires.len() != gate.width() as usize {
            return None;
        }
        let operands = Operands::of(wires)?;
        if operands.distinct() && self.holds_all(operands) {
            Some(operands)
        } else {
            None
        }
    }

    /// Every machine is lawful.
    ghost lawful: { (x : Self) → Lawful (meaning x) };

    /// A machine can make no operation and stay what it is.
    ghost stays: { (x : Self) → makes x [] x };

    /// Operations can be made after others.
    ghost goes: { (x y z : Self) (os ps : List Made) → makes x os y → makes y ps z → makes x (os ++ ps) z };
}
