//! The lines of a sheet, each tested in turn.
ghost use Rattle.std.specs.Prelude.{◌≡◌, MatchBool};
ghost use Rattle.sheet.specs.Sheet.{line_ends, Sized};
ghost use Rattle.sheet.specs.Entries.{entries};
ghost use Rattle.sheet.specs.Lines.{Lined};

use crate::parse::line_of;
use crate::reader::Reader;
use crate::refusal::{Refusal, Rule};
use crate::storage::ReadStorage;
use crate::uses::{first_unused, mark};

/// How many line feeds there are.
fn count_line_ends(bytes: &[u8]) -> usize
    ensures { result ≡ line_ends bytes.now }
{
    bytes.iter().filter(|b| **b == b'\n').count()
}

/// Whether the sheet is not empty, and has no more bytes and line ends than a sheet may have.
fn is_sized(sheet: &[u8]) -> bool
    ensures { MatchBool result (Sized sheet.now) (Sized sheet.now → ⊥) }
{
    !sheet.is_empty() && sheet.len() <= 65_536 && count_line_ends(sheet) <= 4_096
}

impl ReadStorage {
    /// Puts the lines of the sheet into `sheet_lines`, and the marks of those that are used into `used`.
    pub(crate) fn read_lines(&mut self, sheet: &[u8]) -> Result<(), Refusal>
        ensures { Lined sheet.now result (entries self.new.sheet_lines.items) }
    {
        if !is_sized(sheet) {
            return Err(Rule::Size.at(0));
        }
        self.sheet_lines.clear();
        self.used.clear();
        self.used.push_reserved(false);
        for (number, text) in Reader::new(sheet) {
            let at = number as u16;
            let line = text
                .strip_suffix(b"\n")
                .and_then(line_of)
                .ok_or(Rule::Form.at(at))?;
            mark(line.parts.as_slice(), &mut self.used).ok_or(Rule::Part.at(at))?;
            self.sheet_lines.push_reserved(line);
            self.used.push_reserved(false);
        }
        Rule::Part.broken_at(first_unused(&self.used))
    }
}
