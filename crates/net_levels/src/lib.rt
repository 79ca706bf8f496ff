//! Level numbers of a flat netlist's nets, which put each net above those that it depends on, or a
//! combinational cycle.
#![tactic(auto)]

pub mod calls;
mod depends;
pub mod laws;
mod sources;
pub mod types;
