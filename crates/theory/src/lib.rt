//! Which terms the rules of derivation accept, and the theorems about them.
#![tactic(auto)]

ghost use Rattle.theory.specs.Acceptance.{AcceptedIsProper, AcceptedIsTested, NeedsDetermined};

/// The rules derive exactly the terms with the four properties (each variable is bound, each linear variable is used
/// once, nothing linear stands in a bang, no wire stands twice), which are those that pass the test; and what a term
/// needs is determined.
pub fn acceptance_is_decided()
    ensures proper { AcceptedIsProper }
    ensures tested { AcceptedIsTested }
    ensures determined { NeedsDetermined }
{}
