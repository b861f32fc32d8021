//! Terms of the calculus: gates, wires, nodes, and the table of nodes in which a term is stored.
#![tactic(auto)]

ghost use Rattle.std.specs.Prelude.{◌≡◌, ◌<◌, ◌≤◌, MatchOption};
ghost use Rattle.terms.specs.Gate.{code, width, Named};
ghost use Rattle.terms.specs.Flat.{part_count};
ghost use Rattle.terms.specs.Parse.{TableHasOneTree};

/// A gate of the gate book, with its number there.
#[derive(Clone, Copy, PartialEq, Eq, Debug)]
pub enum Gate {
    H = 0,
    X = 1,
    Z = 2,
    S = 3,
    Sdg = 4,
    T = 5,
    Tdg = 6,
    Cx = 7,
    Cz = 8,
    Swap = 9,
    Ccx = 10,
}

impl Gate {
    /// The gate's number in the book, 0 to 10.
    pub fn code(self) -> u8
        ensures { result ≡ code self }
    {
        self as u8
    }

    /// How many wires the gate takes.
    pub fn width(self) -> u8
        ensures { result ≡ width self }
    {
        match self {
            Gate::Cx | Gate::Cz | Gate::Swap => 2,
            Gate::Ccx => 3,
            _ => 1,
        }
    }

    /// The gate whose name `bytes` are.
    // No `TryFrom`: a name that is no gate's needs no error of its own.
    pub fn named(bytes: &[u8]) -> Option<Gate>
        ensures { Named bytes.now result }
    {
        match bytes {
            b"H" => Some(Gate::H),
            b"X" => Some(Gate::X),
            b"Z" => Some(Gate::Z),
            b"S" => Some(Gate::S),
            b"SDG" => Some(Gate::Sdg),
            b"T" => Some(Gate::T),
            b"TDG" => Some(Gate::Tdg),
            b"CX" => Some(Gate::Cx),
            b"CZ" => Some(Gate::Cz),
            b"SWAP" => Some(Gate::Swap),
            b"CCX" => Some(Gate::Ccx),
            _ => None,
        }
    }
}

/// A wire, by its number, 0 to 4,095.
// No ghost field for the bound: in specs/ a term may name any number, and `Shaped` says which are wires. No `Model`: a `Copy`
// struct with a field that has one cannot be used again after it is passed.
#[derive(Clone, Copy, PartialEq, Eq, Debug)]
pub struct Wire {
    number: u16,
}

impl Wire {
    /// The wire of this number, if there is one.
    // No `TryFrom`: as with std's `NonZero::new`, `None` says all that an error could.
    pub fn new(number: u16) -> Option<Wire>
        ensures { MatchOption result (4096 ≤ number) (λ w. (number < 4096) × (w.number ≡ number)) }
    {
        (number < 4096).then_some(Wire { number })
    }

    /// The wire's number.
    pub fn number(self) -> u16
        ensures { result ≡ self.number }
    {
        self.number
    }
}

/// The nine kinds of node, with what belongs to each.
#[derive(Clone, Copy, PartialEq, Eq, Debug)]
pub enum Kind {
    /// A variable: its place in its binder's pattern, and the binders between it and its own.
    Variable { place: u8, up: u16 },
    Wire(Wire),
    /// The constant 0 (`false`) or 1 (`true`).
    Constant(bool),
    Gate(Gate),
    New,
    Bang,
    Application,
    /// A tuple of 2 to 8 parts.
    Tuple(u8),
    /// A binder by its pattern: 0 bang, 1 single, 2 to 8 a tuple of that many variables.
    // No enum: the number is how many linear variables the binder has, and the rules compare places with it.
    Binder(u8),
}

/// A node of a term.
#[derive(Clone, Copy, PartialEq, Eq, Debug)]
pub struct Node {
    pub kind: Kind,
}

impl Node {
    /// How many parts the node has.
    pub fn parts(self) -> usize
        ensures { result ≡ part_count self }
    {
        match self.kind {
            Kind::Variable { .. } | Kind::Wire(_) | Kind::Constant(_) | Kind::Gate(_) => 0,
            Kind::New | Kind::Bang | Kind::Binder(_) => 1,
            Kind::Application => 2,
            Kind::Tuple(parts) => parts as usize,
        }
    }
}

/// The kinds of step, by which steps are counted and charged: the three classical ones, a wire granted for a constant,
/// and a gate.
#[derive(Clone, Copy, PartialEq, Eq, Debug)]
pub enum StepKind {
    Single,
    Tuple,
    Bang,
    Grant(bool),
    Gate(Gate),
}

/// One table of nodes stands for at most one term.
pub fn table_has_one_tree()
    ensures { TableHasOneTree }
{}
