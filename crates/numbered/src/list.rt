//! The list machine.
ghost use Rattle.std.specs.Prelude.{◌≡◌, min, length};
ghost use Rattle.machines.specs.Machine.{wire_count};
ghost use Rattle.numbered.specs.Numbered.{fresh_numbered};

use crate::numbering::Numbering;
use machines::listed::Listed;
use machines::machine::GateMachine;
use machines::operation::Operation;

/// A machine that grants the wires 0, 1, 2 and so on, allows all gates, and writes each operation into a list that it was
/// lent.
pub type ListMachine<'a> = Listed<'a, Numbering>;

/// Holds the wires below `start`, and takes at most `most_wires` wires and as many operations as the list has records.
/// More than 4,096 wires count as 4,096, more than 2,000,000 records as 2,000,000, and a start over the most wires as
/// these.
pub fn list_machine<'a>(start: u32, most_wires: u32, list: &'a mut [Operation]) -> ListMachine<'a>
    ensures means { ⟦<ListMachine<'a> as GateMachine>⟧.meaning result ≡ fresh_numbered start most_wires (length list.old) }
    ensures next { result.wires.next ≡ min start (min most_wires wire_count) }
    ensures most { result.wires.most ≡ min most_wires wire_count }
    ensures made { result.made ≡ 0 }
    ensures list { result.list.now ≡ list.old }
    ensures loan { result.list.ghost_name ≡ list.entry.ghost_name }
{
    Listed::new(Numbering::new(start, most_wires), list)
}
