//! Machines that number their wires from 0 on: the counting machine and the list machine.
#![tactic(auto)]

pub mod counting;
pub mod list;
pub mod numbering;
