//! What a node is to the rules, and the binders that it stands within.

/// A binder that a node stands within: its number, its pattern, and the bangs that it stands in.
#[derive(Clone, Copy)]
pub struct Frame {
    pub number: u16,
    pub pattern: u8,
    pub depth: u16,
}

/// What the rules need to know of a node.
#[derive(Clone, Copy)]
pub enum Role {
    Other,
    /// A variable that has no binder.
    Free,
    /// A variable: its binder's number and pattern, its place, and whether a bang lies between.
    Use {
        binder: u16,
        pattern: u8,
        place: u8,
        banged: bool,
    },
    /// A wire, and whether it stands in a bang.
    Lead {
        wire: u16,
        banged: bool,
    },
    /// A binder: its number and its pattern.
    Opening {
        number: u16,
        pattern: u8,
    },
}
