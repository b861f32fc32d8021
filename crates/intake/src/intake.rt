//! The places and the memory that a sheet goes through until it is accepted.
use checker::accepted::AcceptedProgram;
use checker::storage::CheckStorage;
use sheet::program::Program;
use sheet::storage::ReadStorage;

/// Takes sheets in, one after another; `accepted` holds the last program that was accepted.
#[derive(Drop)]
pub struct Intake {
    pub(crate) read_storage: ReadStorage,
    pub(crate) check_storage: CheckStorage,
    pub(crate) program: Program,
    pub accepted: AcceptedProgram,
}
