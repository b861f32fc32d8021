//! The board: reads a program sheet from standard input, and prints what became of it.
#![tactic(auto)]

use account::count_kinds;
use intake::intake::Intake;
use sheet::located::LocatedNode;
use sheet::refusal::Refusal;
use std::io::Read;

mod account;

/// One byte more than a program sheet may have.
const MOST: u64 = 65_537;

fn print_refusal(rt: &HostRuntime, refusal: Refusal) -> anyhow::Result<()> {
    let number = refusal.rule.number();
    let line = refusal.line;
    println!(rt; "F\t{number}\t{line}")?;
    eprintln!(rt; "refused: {refusal}")?;
    Ok(())
}

fn print_account(rt: &HostRuntime, table: &[LocatedNode]) -> anyhow::Result<()> {
    let counts = count_kinds(table);
    let nodes = table.len();
    let [_, (letter, wires), ..] = counts;
    prove!(letter == 'w');
    println!(rt; "A\t{nodes}\t{nodes}\t{wires}")?;
    for (letter, count) in counts {
        println!(rt; "K\t{letter}\t{count}")?;
    }
    Ok(())
}

fn main(rt: HostRuntime) -> anyhow::Result<()> {
    let heap = rt.alloc();
    let mut sheet = Vec::new(heap);
    rt.stdin().take(MOST).read_to_end(&mut sheet)?;
    let mut intake = Intake::new(heap)?;
    match intake.take_in(sheet.as_slice()) {
        Err(refusal) => print_refusal(&rt, refusal),
        Ok(()) => print_account(&rt, intake.accepted.program.table().as_slice()),
    }
}
