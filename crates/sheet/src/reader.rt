//! The lines of a sheet, one after another.
ghost use Rattle.std.specs.Prelude.{◌≤◌, length};

/// A sheet and how far it is read: `line` lines, and what is left begins at `place`. The lines that it hands out are parts of
/// the sheet.
// No bare `enumerate` over `split_inclusive`: by a rule of this project a sheet is read by a struct that knows its place in
// the sheet and its line.
#[derive(Drop)]
pub(crate) struct Reader<'a> {
    sheet: &'a [u8],
    place: usize,
    line: usize,
    ghost within: { place ≤ length sheet.now },
    ghost counted: { line ≤ place },
}

impl<'a> Reader<'a> {
    ghost use Rattle.std.specs.Prelude.{◌≡◌};
    ghost use Rattle.sheet.specs.Reader.{left};

    /// A reader at the beginning of the sheet.
    pub(crate) fn new(sheet: &'a [u8]) -> Reader<'a>
        ensures left { left result ≡ sheet.now }
        ensures line { result.line ≡ 0 }
    {
        Reader {
            sheet,
            place: 0,
            line: 0,
        }
    }
}

/// Each line with its number, counted from 1, and with the line feed that ends it, unless it is the last and has none.
impl<'a> Iterator for Reader<'a> {
    type Item = (usize, &'a [u8]);

    ghost use Rattle.std.specs.Iterator.{at_most};
    ghost use Rattle.sheet.specs.Reader.{left, Next};

    ghost next_gives = { Next };

    ghost remaining = { λ s. at_most (length (left s)) };

    fn next(&mut self) -> Option<(usize, &'a [u8])> {
        let rest = &self.sheet[self.place..];
        let text = rest.split_inclusive(|b| *b == b'\n').next()?;
        self.place += text.len();
        self.line += 1;
        Some((self.line, text))
    }
}
