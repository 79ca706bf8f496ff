//! The flat-level half of unfolding a hierarchy: links of undriven net bits are dropped, and what is left
//! is a flat netlist, or is refused.
#![tactic(auto)]

mod driven;
mod judge;
mod keep;
mod marks;
mod numbers;
mod owners;
mod pushes;
mod raw;
mod repeats;
mod seen;
mod settled;
mod steps;
#[cfg(test)]
mod tests;

pub use raw::{Raw, RawCell, Unsettled};
pub use settled::settle;
