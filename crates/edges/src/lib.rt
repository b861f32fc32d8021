//! Machines and tariffs at their limits, as tables of tests.
#![tactic(auto)]

#[cfg(test)]
use machines::machine::GateMachine;
#[cfg(test)]
use std::test::Fail;
#[cfg(test)]
use terms::Wire;

#[cfg(test)]
mod charges;
#[cfg(test)]
mod chips;
#[cfg(test)]
mod counts;
#[cfg(test)]
mod lists;

// The number of the wire that a machine grants, if it grants one.
#[cfg(test)]
fn granted<M: GateMachine>(machine: &mut M, constant: bool) -> Option<u16> {
    machine.grant(constant).ok().map(|wire| wire.number())
}

// The wire of this number.
#[cfg(test)]
fn wire(number: u16) -> Result<Wire, Fail> {
    Ok(Wire::new(number).ok_or("no such wire")?)
}
