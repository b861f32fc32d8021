//! From the lines of a sheet to the table of its term.
ghost use Rattle.std.specs.Prelude.{◌≡◌, ℕ, ◌+◌, ◌≤◌, List, ◌++◌, reverse, length, vec_len, vec_capacity};
ghost use Rattle.sheet.specs.Sheet.{Says};
ghost use Rattle.sheet.specs.Entries.{entries};
ghost use Rattle.sheet.specs.Tables.{Tabled};

use crate::line::Line;
use crate::located::LocatedNode;
use crate::storage::ReadStorage;
use terms::Node;

/// Puts the numbers on the stack, the first on top.
fn push_all(numbers: &[u16], stack: &mut Vec<u16>)
    requires { vec_len stack.old + length numbers.now ≤ vec_capacity stack.old }
    ensures items { stack.new.items ≡ stack.old.items ++ reverse numbers.now }
    ensures capacity { vec_capacity stack.new ≡ vec_capacity stack.old }
{
    for number in numbers.iter().rev() {
        stack.push_reserved(*number);
    }
}

impl ReadStorage {
    /// Puts the nodes of the last line's term into `table`, in the order of their numbers, each with its line.
    /// `pending` is a stack of lines whose terms are still to come.
    pub(crate) fn fill_table(&mut self, table: &mut Vec<LocatedNode>)
        requires said { (sheet : List ℕ) × Says sheet (entries self.old.sheet_lines.items) }
        requires room { 4096 ≤ vec_capacity table.old }
        ensures tabled { Tabled (entries self.old.sheet_lines.items) table.new.items }
        ensures room { 4096 ≤ vec_capacity table.new }
    {
        self.pending.clear();
        table.clear();
        self.pending.push_reserved(self.sheet_lines.len() as u16);
        while let Some(line) = self.pending.pop() {
            let Line { kind, parts } = &self.sheet_lines[line as usize - 1];
            table.push_reserved(LocatedNode {
                node: Node { kind: *kind },
                line,
            });
            push_all(parts.as_slice(), &mut self.pending);
        }
    }
}
