//! The counting machine.
ghost use Rattle.std.specs.Prelude.{◌≡◌, min};
ghost use Rattle.machines.specs.Machine.{wire_count};
ghost use Rattle.numbered.specs.Numbered.{fresh_numbered};

use crate::numbering::Numbering;
use machines::composed::Machine;
use machines::journal::Last;
use machines::machine::GateMachine;

/// A machine that grants the wires 0, 1, 2 and so on, allows all gates, and only counts.
pub type CountingMachine = Machine<Numbering, Last>;

/// Holds the wires below `start`, and takes at most `most_wires` wires and `most_operations` operations. More than
/// 4,096 wires count as 4,096, more than 2,000,000 operations as 2,000,000, and a start over the most wires as these.
pub fn counting_machine(start: u32, most_wires: u32, most_operations: u32) -> CountingMachine
    ensures means { ⟦<CountingMachine as GateMachine>⟧.meaning result ≡ fresh_numbered start most_wires most_operations }
    ensures next { result.wires.next ≡ min start (min most_wires wire_count) }
    ensures most { result.wires.most ≡ min most_wires wire_count }
{
    Machine::new(
        Numbering::new(start, most_wires),
        Last::new(most_operations),
    )
}
