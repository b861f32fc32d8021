//! Only a program that was checked gets into the lawful place.
#![tactic(auto)]

use checker::accepted::AcceptedProgram;
use checker::check;
use checker::storage::CheckStorage;
use sheet::program::Program;
use sheet::read;
use sheet::storage::ReadStorage;

/// The identity: a binder of pattern 1 whose body is its variable.
const SHEET: &[u8] = b"v\t0\t0\nl\t1\t1\n";

fn main(rt: HostRuntime) -> anyhow::Result<()> {
    let heap = rt.alloc();
    let mut read_storage = ReadStorage::new(heap)?;
    let mut check_storage = CheckStorage::new(heap)?;
    let mut program = Program::new(heap)?;
    let mut accepted = AcceptedProgram::new(heap)?;
    read(SHEET, &mut read_storage, &mut program)?;
    check(&mut program, &mut check_storage, &mut accepted)?;
    let nodes = accepted.program.table().len();
    println!(rt; "accepted: {nodes} nodes")?;
    Ok(())
}
