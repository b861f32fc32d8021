//! Checking a program against the rules of derivation.
#![tactic(auto)]

ghost use Rattle.std.specs.Prelude.{IfOk};
ghost use Rattle.sheet.specs.Reading.{HoldsZero};
ghost use Rattle.checker.specs.Found.{roles, site_lines};
ghost use Rattle.checker.specs.Judged.{Judged};
ghost use Rattle.checker.specs.Verdict.{Decided, Checked, VerdictIsDetermined};

use accepted::AcceptedProgram;
use counts::UseCounts;
use firsts::FirstLines;
use rules::first_line;
use sheet::program::Program;
use sheet::refusal::{Refusal, Rule};
use site::Site;
use std::alloc::{AllocError, Global};
use storage::CheckStorage;
use walk::Walk;

pub mod accepted;
mod counts;
mod firsts;
mod role;
mod rules;
mod site;
pub mod storage;
mod walk;

impl AcceptedProgram {
    /// Reserves the place of an accepted program; at first it holds the program of the constant 0.
    pub fn new(heap: Global) -> Result<AcceptedProgram, AllocError>
        ensures { IfOk result (λ a. HoldsZero a.program) }
    {
        let program = Program::new(heap)?;
        Ok(AcceptedProgram { program })
    }
}

impl CheckStorage {
    /// Reserves the memory for checking programs of up to 4,096 nodes.
    pub fn new(heap: Global) -> Result<CheckStorage, AllocError> {
        Ok(CheckStorage {
            walk: Walk::new(heap)?,
            counts: UseCounts::new(heap)?,
            firsts: FirstLines::new(heap)?,
        })
    }

    // The verdict on the sites of the last walk.
    fn judge(&mut self) -> Result<(), Refusal>
        ensures { Judged (roles self.old.walk.sites.items) (site_lines self.old.walk.sites.items) result }
    {
        let sites = self.walk.sites();
        Rule::Unbound.broken_at(first_line(sites, Site::is_unbound))?;
        self.counts.count(sites);
        Rule::Misused.broken_at(first_line(sites, |site| self.counts.is_misused(site)))?;
        Rule::Shut.broken_at(first_line(sites, Site::is_shut))?;
        Rule::Repeated.broken_at(self.firsts.first_repeated(sites))
    }
}

// The verdict on a program.
fn verdict(program: &Program, storage: &mut CheckStorage) -> Result<(), Refusal>
    ensures { Decided result program.now }
{
    storage.walk.note(program);
    storage.judge()
}

/// Checks a program. One that the rules derive changes places with the program that `place` holds. Any other is refused, with
/// the first rule that it breaks and the smallest line that breaks it, and all stays as it was.
pub fn check(
    program: &mut Program,
    storage: &mut CheckStorage,
    place: &mut AcceptedProgram,
) -> Result<(), Refusal>
    ensures { Checked result program.old program.new place.old place.new }
{
    verdict(program, storage)?;
    std::mem::swap(program, &mut place.program);
    Ok(())
}

/// A program breaks one rule first, at one line: there is no other verdict than the one that `check` gives.
pub fn verdict_is_determined()
    ensures { VerdictIsDetermined }
{}
