//! Gate machines: what a machine means, how it is asked to grant wires and to apply gates, and what it is composed of.
#![tactic(auto)]

mod calls;
pub mod composed;
pub mod journal;
pub mod listed;
pub mod machine;
pub mod operation;
pub mod wires;
