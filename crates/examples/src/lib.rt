//! Worked examples: short sheets with their verdicts, as theorems.
#![tactic(auto)]

ghost use Rattle.examples.specs.Table.{Table};

/// Worked examples: what these sheets say, and the verdict on each.
pub fn examples_hold()
    ensures { Table }
{}
