//! The nodes of a program, each with its place in the sheet.
use terms::Node;

/// A node, and the line of the sheet that it stands on.
#[derive(Clone, Copy, PartialEq, Eq, Debug)]
pub struct LocatedNode {
    pub node: Node,
    pub line: u16,
}
