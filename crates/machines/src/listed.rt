//! Machines that write their operations into a list that they were lent.
ghost use Rattle.std.specs.Prelude.{◌≡◌, ◌+◌, length, take};
ghost use Rattle.machines.specs.Listing.{list_last, list_most, Writes};

use crate::calls;
use crate::machine::GateMachine;
use crate::operation::{Full, GateRefusal, Operation};
use crate::wires::Wires;
use terms::{Gate, Wire};

/// A machine that takes its wires from `wires`, and writes each operation into a list that it was lent, from its front on.
// A struct of its own, and not `Machine` with the list as its journal: of that no trait object is covered (*a trait object
// needs the block `machines::composed::MachineGateMachine` at a lifetime, a type parameter, ..*). No ghost field for the bound
// on `made`: with one beside the lent list it could not be taken by value in generic code.
#[derive(Drop)]
pub struct Listed<'a, W> {
    wires: W,
    made: usize,
    list: &'a mut [Operation],
}

impl<'a, W> Listed<'a, W> {
    /// A machine of these wires and this list, which has made no operation.
    pub fn new(wires: W, list: &'a mut [Operation]) -> Listed<'a, W>
        ensures wires { result.wires ≡ wires }
        ensures made { result.made ≡ 0 }
        ensures list { result.list.now ≡ list.old }
        ensures loan { result.list.ghost_name ≡ list.entry.ghost_name }
    {
        Listed {
            wires,
            made: 0,
            list,
        }
    }

    /// The records written so far, one for each operation.
    pub fn records(&self) -> &[Operation]
        ensures { result.now ≡ take self.now.made self.now.list.now }
    {
        let made = self.made.min(self.list.len());
        &self.list[..made]
    }
}

impl<'a, W: Wires> GateMachine for Listed<'a, W> {
    ghost use Rattle.machines.specs.Operation.{granted_wires};
    ghost use Rattle.machines.specs.Composed.{composed};
    ghost use Rattle.machines.specs.Laws.{composed_lawful, wires_go, count_stays, count_goes, writes_stay, writes_go};

    ghost meaning = { λ m. composed (W.supply m.wires) m.made (list_last m.list m.made) (list_most m.list) };

    ghost makes = { λ x os y. record { wires : W.takes x.wires (granted_wires os) y.wires; made : y.made ≡ x.made + length os; list : Writes x.list x.made os y.list } };

    ghost lawful = { λ m. composed_lawful (W.supply m.wires) m.made (list_last m.list m.made) (list_most m.list) (W.bounded m.wires) };

    ghost stays = { λ x. record { wires = W.stays x.wires; made = count_stays x.made; list = writes_stay x.list x.made } };

    ghost goes = { λ x y z os ps a b. record {
      wires = wires_go (λ ws. W.takes x.wires ws z.wires) os ps (W.goes x.wires y.wires z.wires (granted_wires os) (granted_wires ps) a.wires b.wires);
      made = count_goes x.made y.made z.made os ps a.made b.made;
      list = writes_go x.list y.list z.list x.made y.made os ps a.made a.list b.list;
    } };

    fn grant(&mut self, constant: bool) -> Result<Wire, Full> {
        calls::grant(&mut self.wires, &mut self.made, &mut self.list, constant)
    }

    fn apply(&mut self, gate: Gate, wires: &[Wire]) -> Result<(), GateRefusal> {
        let named = self.named(gate, wires);
        calls::apply(&self.wires, &mut self.made, &mut self.list, gate, named)
    }

    fn holds(&self, wire: Wire) -> bool {
        self.wires.holds(wire)
    }
}
