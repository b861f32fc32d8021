//! Machines that are composed of their wires and of a journal.
ghost use Rattle.std.specs.Prelude.{◌≡◌, ◌+◌, ◌≤◌, length, None};

use crate::calls;
use crate::journal::{Journal, Last};
use crate::machine::GateMachine;
use crate::operation::{Full, GateRefusal, Operation};
use crate::wires::Wires;
use terms::{Gate, Wire};

/// A machine that takes its wires from `wires`, counts its operations, and writes them into `journal`.
#[derive(Drop)]
pub struct Machine<W, J: Journal> {
    wires: W,
    made: usize,
    journal: J,
    ghost within: { made ≤ J.most journal },
}

impl<W: Wires, J: Journal> Machine<W, J> {
    /// A machine of these wires and this journal, which has made no operation.
    pub fn new(wires: W, journal: J) -> Machine<W, J>
        ensures wires { result.wires ≡ wires }
        ensures made { result.made ≡ 0 }
        ensures journal { result.journal ≡ journal }
        ensures last { J.last result.journal result.made ≡ None }
    {
        Machine {
            wires,
            made: 0,
            journal,
        }
    }
}

impl<W> Machine<W, Last> {
    ghost use Rattle.std.specs.Option.{option_map};
    ghost use Rattle.machines.specs.Kept.{kept};

    /// The last operation, if there was one.
    pub fn last(&self) -> Option<&Operation>
        ensures { option_map (λ x. x.now) result ≡ kept self.now.made self.now.journal.operation }
    {
        if self.made == 0 {
            None
        } else {
            self.journal.operation()
        }
    }
}

impl<'a, W> Machine<W, &'a mut [Operation]> {
    ghost use Rattle.std.specs.Prelude.{take};

    /// The records written so far, one for each operation.
    pub fn records(&self) -> &[Operation]
        ensures { result.now ≡ take self.now.made self.now.journal.now }
    {
        &self.journal[..self.made]
    }
}

impl<W: Wires, J: Journal> GateMachine for Machine<W, J> {
    ghost use Rattle.machines.specs.Operation.{granted_wires};
    ghost use Rattle.machines.specs.Composed.{composed};
    ghost use Rattle.machines.specs.Laws.{composed_lawful, wires_go, count_stays, count_goes};

    ghost meaning = { λ m. composed (W.supply m.wires) m.made (J.last m.journal m.made) (J.most m.journal) };

    ghost makes = { λ x os y. record { wires : W.takes x.wires (granted_wires os) y.wires; made : y.made ≡ x.made + length os; journal : J.writes x.journal x.made os y.journal } };

    ghost lawful = { λ m. composed_lawful (W.supply m.wires) m.made (J.last m.journal m.made) (J.most m.journal) (W.bounded m.wires) };

    ghost stays = { λ x. record { wires = W.stays x.wires; made = count_stays x.made; journal = J.stays x.journal x.made } };

    ghost goes = { λ x y z os ps a b. record {
      wires = wires_go (λ ws. W.takes x.wires ws z.wires) os ps (W.goes x.wires y.wires z.wires (granted_wires os) (granted_wires ps) a.wires b.wires);
      made = count_goes x.made y.made z.made os ps a.made b.made;
      journal = J.goes x.journal y.journal z.journal x.made y.made os ps a.made a.journal b.journal;
    } };

    fn grant(&mut self, constant: bool) -> Result<Wire, Full> {
        calls::grant(&mut self.wires, &mut self.made, &mut self.journal, constant)
    }

    fn apply(&mut self, gate: Gate, wires: &[Wire]) -> Result<(), GateRefusal> {
        let named = self.named(gate, wires);
        calls::apply(&self.wires, &mut self.made, &mut self.journal, gate, named)
    }

    fn holds(&self, wire: Wire) -> bool {
        self.wires.holds(wire)
    }
}
