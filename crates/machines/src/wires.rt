//! The wires of a machine.
ghost use Rattle.std.specs.Prelude.{◌≡◌, ℕ, List, [], ◌++◌};
ghost use Rattle.machines.specs.Operation.{number, numbers};
ghost use Rattle.machines.specs.Wires.{Supply, Bounded, Takes, taken};

use crate::operation::{Full, Operands};
use terms::{Gate, Wire};

/// The wires that a machine holds, and which gates it allows on them.
pub trait Wires {
    /// The wires held, the most of them, and the gates allowed.
    ghost supply: { Self → Supply };

    /// What is known besides of wires that are taken: `takes x ws y` tells of x, of the wires ws that are taken, and of y,
    /// which it then is.
    ghost takes: { Self → List ℕ → Self → Type 0 };

    /// Takes a wire that was not held.
    fn take(&mut self) -> Result<Wire, Full>
        ensures supply { Takes result (supply self.old) (supply self.new) }
        ensures takes { takes self.old (taken result) self.new };

    /// Whether the wire is held.
    fn holds(&self, wire: Wire) -> bool
        ensures { result ≡ (supply self.now).held (number wire) };

    /// Whether the gate is allowed on the operands.
    fn allows(&self, gate: Gate, operands: Operands) -> bool
        ensures { result ≡ (supply self.now).allowed gate (numbers operands) };

    /// Only wires are held, and no more of them than there are.
    ghost bounded: { (x : Self) → Bounded (supply x) };

    /// No wire can be taken.
    ghost stays: { (x : Self) → takes x [] x };

    /// Wires can be taken after others.
    ghost goes: { (x y z : Self) (us vs : List ℕ) → takes x us y → takes y vs z → takes x (us ++ vs) z };
}
