//! Why a program sheet is refused, and where.
ghost use Rattle.std.specs.Prelude.{◌≡◌, Some, MatchOption};
ghost use Rattle.sheet.specs.Refusal.{number, reason, told};

use std::error::Error;
use std::fmt;

/// The rule that a sheet breaks, with the number by which it is known.
#[derive(Clone, Copy, PartialEq, Eq, Debug)]
pub enum Rule {
    /// A line does not follow the sheet's form.
    Form = 11,
    /// The sheet is empty, over 65,536 bytes, or has over 4,096 line ends.
    Size = 12,
    /// A part is not an earlier line or is already used, or a line but the last is not used.
    Part = 13,
    /// A variable has no binder, or a place outside its binder's pattern.
    Unbound = 14,
    /// A variable of a linear pattern is used never or more than once.
    Misused = 15,
    /// A linear variable stands in a bang inside its binder's body, or a wire in any bang.
    Shut = 16,
    /// A wire stands on an earlier line too.
    Repeated = 17,
}

/// The broken rule, and the line, counted from 1, that breaks it; a sheet of a wrong size is refused at line 0.
#[derive(Clone, Copy, PartialEq, Eq, Debug)]
pub struct Refusal {
    pub rule: Rule,
    pub line: u16,
}

impl Rule {
    /// The number by which the rule is known.
    pub fn number(self) -> u8
        ensures { result ≡ number self }
    {
        self as u8
    }

    /// The refusal of a sheet that breaks the rule at this line.
    pub fn at(self, line: u16) -> Refusal
        ensures { result ≡ record { rule = self; line = line } }
    {
        Refusal { rule: self, line }
    }

    /// The refusal at the line that breaks the rule, if there is one.
    pub fn broken_at(self, line: Option<u16>) -> Result<(), Refusal>
        ensures { MatchOption line (result ≡ Ok tt) (λ l. result ≡ Err (record { rule = self; line = l })) }
    {
        line.map_or(Ok(()), |line| Err(self.at(line)))
    }
}

/// What is wrong with a sheet that breaks the rule.
impl fmt::Display for Rule {
    ghost output = { λ x. Some (reason x) };

    fn fmt<W: fmt::Write>(&self, f: &mut fmt::Formatter<W>) -> fmt::Result {
        f.write_str(match self {
            Rule::Form => "the line does not follow the form of a sheet",
            Rule::Size =>
                "the sheet is empty, has more than 65536 bytes, or has more than 4096 line ends",
            Rule::Part =>
                "a part is not an earlier line or is already used, or no line uses this one",
            Rule::Unbound => "the variable has no binder, or a place outside its binder's pattern",
            Rule::Misused => "a variable of this binder is used never or more than once",
            Rule::Shut => "a linear variable or a wire stands in a bang",
            Rule::Repeated => "the wire stands on an earlier line too",
        })
    }
}

impl fmt::Display for Refusal {
    ghost output = { λ x. Some (told x.rule x.line) };

    fn fmt<W: fmt::Write>(&self, f: &mut fmt::Formatter<W>) -> fmt::Result {
        let Refusal { rule, line } = self;
        write!(f, "line {line}: {rule}")
    }
}

impl Error for Refusal {}
