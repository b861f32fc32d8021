//! How long reading and checking take. Without an argument only counts are printed; with the argument `times`, the
//! nanoseconds of one reading and checking too.
#![tactic(auto)]

use intake::intake::Intake;
use std::alloc::{AllocError, Global};
use std::env;
use std::time::Instant;

/// A Bell pair, on 14 lines.
const BELL: &[u8] =
    b"v\t0\t0\nv\t0\t1\nt\t1\t2\ng\tCX\na\t4\t3\nl\t2\t5\ng\tH\nc\t0\nn\t8\na\t7\t9\nc\t0\nn\t11\nt\t10\t12\na\t6\t13\n";

/// A sheet of 4,096 lines: 818 times a binder of pattern 1 that puts H on its variable is applied to what came before,
/// and in the end H twice.
fn long_sheet(heap: Global) -> Result<Vec<u8>, AllocError> {
    let mut sheet = Vec::new(heap);
    sheet.extend_from_slice(b"c\t0\nn\t1\n")?;
    for i in 0..818u32 {
        let last = 5 * i + 2;
        let variable = last + 1;
        let gate = last + 2;
        let body = last + 3;
        let binder = last + 4;
        let text = format!(in heap;
            "v\t0\t0\ng\tH\na\t{gate}\t{variable}\nl\t1\t{body}\na\t{binder}\t{last}\n"
        )?;
        sheet.extend_from_slice(text.as_bytes())?;
    }
    sheet.extend_from_slice(b"g\tH\na\t4093\t4092\ng\tH\na\t4095\t4094\n")?;
    Ok(sheet)
}

/// Reads and checks the sheet `turns` times; how many nodes were accepted in all.
fn take_in_often(intake: &mut Intake, sheet: &[u8], turns: u32) -> usize {
    let mut nodes = 0usize;
    for _ in 0..turns {
        if intake.take_in(sheet).is_ok() {
            nodes = nodes.saturating_add(intake.accepted.program.table().len());
        }
    }
    nodes
}

/// A sheet, how often it is read and checked, and the nanoseconds that a good program without proofs needs for it.
struct Task<'a> {
    name: &'a str,
    sheet: &'a [u8],
    turns: u32,
    unproved: u128,
}

fn measure(rt: &HostRuntime, intake: &mut Intake, task: Task, timed: bool) -> anyhow::Result<()> {
    let Task {
        name,
        sheet,
        turns,
        unproved,
    } = task;
    let start = Instant::now(rt)?;
    let nodes = take_in_often(intake, sheet, turns);
    let spent = start.elapsed(rt)?.as_nanos();
    println!(rt; "{name}: {turns} times, {nodes} nodes accepted")?;
    if timed && turns > 0 && unproved > 0 {
        let each = spent / turns as u128;
        let percent = each.saturating_mul(100) / unproved;
        println!(rt; "{name}: {each} ns each, {percent}% of {unproved} ns")?;
    }
    Ok(())
}

fn main(rt: HostRuntime) -> anyhow::Result<()> {
    let heap = rt.alloc();
    let timed = env::args(&rt)?.count() > 1;
    let scale = if timed { 1000 } else { 1 };
    let mut intake = Intake::new(heap)?;
    let long = long_sheet(heap)?;
    let many_lines = Task {
        name: "4096 lines",
        sheet: long.as_slice(),
        turns: 5 * scale,
        unproved: 57_000,
    };
    measure(&rt, &mut intake, many_lines, timed)?;
    let few_lines = Task {
        name: "14 lines",
        sheet: BELL,
        turns: 1000 * scale,
        unproved: 260,
    };
    measure(&rt, &mut intake, few_lines, timed)
}
