//! A program as it was read.
ghost use Rattle.std.specs.Prelude.{◌≡◌, ℕ, ◌<◌, ◌≤◌, true, vec_len, vec_capacity, slice_index};
ghost use Rattle.terms.specs.Parse.{term, HoldsTerm};
ghost use Rattle.terms.specs.Shape.{shaped};
ghost use Rattle.sheet.specs.Located.{nodes_in, lines_in};
ghost use Rattle.sheet.specs.Sheet.{times};

use crate::located::LocatedNode;

/// A term's nodes in the order of their numbers, each with its line in the sheet.
#[derive(Drop)]
pub struct Program {
    pub(crate) table: Vec<LocatedNode>,
    ghost tree: { HoldsTerm (nodes_in table.items) },
    ghost formed: { shaped (term (nodes_in table.items)) ≡ true },
    ghost few: { vec_len table ≤ 4096 },
    ghost numbered: { (n : ℕ) → n < vec_len table → (1 ≤ slice_index (lines_in table.items) n) × (slice_index (lines_in table.items) n ≤ 4096) },
    ghost apart: { (k : ℕ) → times k (lines_in table.items) ≤ 1 },
    ghost room: { 4096 ≤ vec_capacity table },
}
