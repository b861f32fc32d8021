//! The memory that reading works in.
ghost use Rattle.std.specs.Prelude.{◌≤◌, vec_capacity};

use crate::line::Line;

/// Room for the lines of a sheet, the marks of those that are used, and a stack of lines.
// The marks stand beside the lines and not in them: they are tested and set as a slice, in which a mark for no line comes
// first, so that the number of a part is the place of its mark.
#[derive(Drop)]
pub struct ReadStorage {
    pub(crate) sheet_lines: Vec<Line>,
    pub(crate) used: Vec<bool>,
    pub(crate) pending: Vec<u16>,
    ghost line_room: { 4096 ≤ vec_capacity sheet_lines },
    ghost mark_room: { 4097 ≤ vec_capacity used },
    ghost pending_room: { 4096 ≤ vec_capacity pending },
}
