//! One line of a sheet, taken apart.
ghost use Rattle.std.specs.Prelude.{◌≡◌, ◌<◌, ◌≤◌, [], ◌∷◌, ◌++◌, length, MatchOption};

use std::marker::Model;
use terms::Kind;

/// At most eight numbers.
// An array with a count, and no `Vec`: reading allocates nothing.
#[derive(Drop)]
pub(crate) struct Numbers {
    list: [u16; 8],
    count: u8,
}

// Clauses see the list of the numbers.
impl Model for Numbers {
    ghost use Rattle.std.specs.Prelude.{ℕ, List, take, ◌≤◌};

    ghost Value = { List ℕ };

    ghost view = { λ m. take m.count m.list };

    ghost invariant = { λ m. m.count ≤ 8 };
}

impl Numbers {
    /// No number.
    pub(crate) fn new() -> Numbers
        ensures { result ≡ [] }
    {
        Numbers {
            list: [0; 8],
            count: 0,
        }
    }

    /// One number; the others in the array do not count.
    pub(crate) fn one(number: u16) -> Numbers
        ensures { result ≡ number ∷ [] }
    {
        Numbers {
            list: [number; 8],
            count: 1,
        }
    }

    /// One number more, if there is room for it.
    pub(crate) fn push(&mut self, number: u16) -> Option<()>
        ensures { MatchOption result ((8 ≤ length self.old) × (self.new ≡ self.old)) (λ _. (length self.old < 8) × (self.new ≡ self.old ++ number ∷ [])) }
    {
        let place = self.count as usize;
        if place == self.list.len() {
            return None;
        }
        self.list[place] = number;
        self.count += 1;
        Some(())
    }

    /// The numbers as a slice.
    pub(crate) fn as_slice(&self) -> &[u16]
        ensures numbers { result.now ≡ self.now }
        ensures few { length self.now ≤ 8 }
    {
        &self.list[..self.count as usize]
    }
}

/// What a line says: the kind of its node, and the lines of its parts.
#[derive(Drop)]
pub(crate) struct Line {
    pub kind: Kind,
    pub parts: Numbers,
}
