//! What checking notes of a program's nodes.
ghost use Rattle.std.specs.Prelude.{◌≡◌};
ghost use Rattle.checker.specs.Roles.{Ranged, Ranged-prop, unbound_role, shut_role};

use crate::role::Role;

/// A node, by what it is to the rules and by its line.
#[derive(Clone, Copy)]
pub struct Site {
    pub role: Role,
    pub line: u16,
    ghost ranged: { Ranged role } by { Ranged-prop role },
}

impl Site {
    /// Whether it is a variable with no binder, or with a place outside its binder's pattern.
    pub(crate) fn is_unbound(&self) -> bool
        ensures { result ≡ unbound_role self.now.role }
    {
        match self.role {
            Role::Free => true,
            Role::Use { pattern, place, .. } => pattern.max(1) <= place,
            _ => false,
        }
    }

    /// Whether it is a linear variable or a wire that stands in a bang.
    pub(crate) fn is_shut(&self) -> bool
        ensures { result ≡ shut_role self.now.role }
    {
        match self.role {
            Role::Use {
                pattern,
                place,
                banged,
                ..
            } => banged && place < pattern,
            Role::Lead { banged, .. } => banged,
            _ => false,
        }
    }
}
