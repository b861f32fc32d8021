//! From a program sheet to an accepted program: reading and checking in one call.
#![tactic(auto)]

ghost use Rattle.std.specs.Prelude.{IfOk};
ghost use Rattle.sheet.specs.Reading.{HoldsZero};
ghost use Rattle.intake.specs.Verdict.{TakesIn};

use checker::accepted::AcceptedProgram;
use checker::check;
use checker::storage::CheckStorage;
use intake::Intake;
use sheet::program::Program;
use sheet::read;
use sheet::refusal::Refusal;
use sheet::storage::ReadStorage;
use std::alloc::{AllocError, Global};

pub mod intake;

impl Intake {
    /// Reserves all memory that sheets of any size need; the accepted program is at first that of the constant 0.
    pub fn new(heap: Global) -> Result<Intake, AllocError>
        ensures { IfOk result (λ i. HoldsZero i.accepted.program) }
    {
        let read_storage = ReadStorage::new(heap)?;
        let check_storage = CheckStorage::new(heap)?;
        let program = Program::new(heap)?;
        let accepted = AcceptedProgram::new(heap)?;
        Ok(Intake {
            read_storage,
            check_storage,
            program,
            accepted,
        })
    }

    /// Reads and checks a sheet. A refusal leaves the accepted program as it was.
    pub fn take_in(&mut self, sheet: &[u8]) -> Result<(), Refusal>
        ensures { TakesIn sheet.now result self.old.accepted self.new.accepted }
    {
        read(sheet, &mut self.read_storage, &mut self.program)?;
        check(
            &mut self.program,
            &mut self.check_storage,
            &mut self.accepted,
        )
    }
}
