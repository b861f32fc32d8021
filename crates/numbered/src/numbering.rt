//! Wires that are numbered from 0 on.
use machines::machine::MOST_WIRES;
use machines::operation::{Full, Operands};
use machines::wires::Wires;
use terms::{Gate, Wire};

/// The wires below `next` are held, at most `most` are, and all gates are allowed on them.
// No ghost fields for the bounds, so that a machine with a lent list can be handed on by value in generic code. What is held
// and the most that is are limited by the number of wires instead; the makers tell the bounds, and `NumbersTaken` keeps them.
#[derive(Clone, Copy)]
pub struct Numbering {
    next: u16,
    most: u16,
}

impl Numbering {
    ghost use Rattle.std.specs.Prelude.{◌≡◌, min};
    ghost use Rattle.machines.specs.Machine.{wire_count};

    /// Holds the wires below `start`. More than 4,096 wires count as 4,096, and a start over the most wires as these.
    // No struct for the two numbers, which all makers of machines hand on: it would be taken apart here alone.
    pub fn new(start: u32, most: u32) -> Numbering
        ensures next { result.next ≡ min start (min most wire_count) }
        ensures most { result.most ≡ min most wire_count }
    {
        let most = most.min(MOST_WIRES as u32);
        Numbering {
            next: start.min(most) as u16,
            most: most as u16,
        }
    }
}

impl Wires for Numbering {
    ghost use Rattle.numbered.specs.Numbered.{supply_of, NumbersTaken};
    ghost use Rattle.numbered.specs.Laws.{numbering_bounded, numbers_taken_stay, numbers_taken_go};

    ghost supply = { supply_of };

    ghost takes = { NumbersTaken };

    ghost bounded = { numbering_bounded };

    ghost stays = { numbers_taken_stay };

    ghost goes = { numbers_taken_go };

    fn take(&mut self) -> Result<Wire, Full> {
        if self.next >= self.most.min(MOST_WIRES) {
            return Err(Full);
        }
        let wire = Wire::new(self.next).unwrap();
        self.next += 1;
        Ok(wire)
    }

    fn holds(&self, wire: Wire) -> bool {
        wire.number() < self.next.min(MOST_WIRES)
    }

    fn allows(&self, _gate: Gate, _operands: Operands) -> bool {
        true
    }
}
