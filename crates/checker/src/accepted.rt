//! The place of a program that was accepted.
ghost use Rattle.theory.specs.Acceptance.{Accepted};
ghost use Rattle.sheet.specs.Reading.{term_of};

use sheet::program::Program;

/// A program that the rules derive.
#[derive(Drop)]
pub struct AcceptedProgram {
    pub program: Program,
    ghost derived: { ∥ Accepted (term_of program) ∥₁ },
}
