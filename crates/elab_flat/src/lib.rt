//! A checked hierarchy of modules as a flat netlist that has exactly its runs.
#![tactic(auto)]

mod clock;
mod flatten_design;
mod limits;
#[cfg(test)]
mod tests;

pub use flatten_design::flatten;
