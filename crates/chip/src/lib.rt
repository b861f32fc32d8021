//! The chip machine.
#![tactic(auto)]

ghost use Rattle.std.specs.Prelude.{◌≡◌, slice_index};
ghost use Rattle.chip.specs.Chip.{chip_supply, fresh_chip, coupled, Fills};
ghost use Rattle.chip.specs.Laws.{chip_bounded, fills_stay, fills_go};
ghost use Rattle.machines.specs.Operation.{number};

use crate::mask::Mask;
use machines::composed::Machine;
use machines::journal::Last;
use machines::machine::GateMachine;
use machines::operation::{Full, Operands};
use machines::wires::Wires;
use terms::{Gate, Wire};

mod mask;

/// How many wires a chip has.
const WIRES: usize = 64;

/// The 64 wires of a chip, and which of them are coupled.
#[derive(Drop)]
pub struct Chip {
    held: Mask,
    couplings: [u64; WIRES],
}

/// A machine of 64 wires, of which it grants the free one with the largest number. It allows gates of width 1, and of width 2
/// on coupled wires.
pub type ChipMachine = Machine<Chip, Last>;

/// Holds the wires of the mask `held`, takes at most `most_operations` operations, of which more than 2,000,000 count as
/// 2,000,000, and couples two wires if the mask of one in `couplings` has the other.
pub fn chip_machine(held: u64, most_operations: u32, couplings: [u64; WIRES]) -> ChipMachine
    ensures { ⟦<ChipMachine as GateMachine>⟧.meaning result ≡ fresh_chip held most_operations couplings }
{
    let chip = Chip {
        held: Mask(held),
        couplings,
    };
    Machine::new(chip, Last::new(most_operations))
}

impl Chip {
    // The wires that a wire is coupled to, in this direction.
    fn coupling(&self, wire: Wire) -> Mask
        ensures { result.0 ≡ slice_index self.now.couplings (number wire) }
    {
        let at = wire.number() as usize;
        Mask(self.couplings.get(at).copied().unwrap_or(0))
    }

    // Whether two wires are coupled, in either order.
    fn couples(&self, a: Wire, b: Wire) -> bool
        ensures { result ≡ coupled self.now.couplings (number a) (number b) }
    {
        self.coupling(a).has(b) || self.coupling(b).has(a)
    }
}

impl Wires for Chip {
    ghost supply = { chip_supply };

    ghost takes = { Fills };

    ghost bounded = { chip_bounded };

    ghost stays = { fills_stay };

    ghost goes = { fills_go };

    fn take(&mut self) -> Result<Wire, Full> {
        if self.held.count() >= WIRES {
            return Err(Full);
        }
        let wire = self.held.highest_free();
        self.held = self.held.with(wire);
        Ok(wire)
    }

    fn holds(&self, wire: Wire) -> bool {
        self.held.has(wire)
    }

    fn allows(&self, gate: Gate, operands: Operands) -> bool {
        match (gate.width(), operands) {
            (1, _) => true,
            (2, Operands::Two(a, b)) => self.couples(a, b),
            _ => false,
        }
    }
}
