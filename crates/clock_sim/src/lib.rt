//! The plain simulator: every cell evaluated at each clock, in the order of levels.
#![tactic(auto)]

mod bits;
mod build;
mod clocking;
mod evaluate;
mod plain;
mod plan;
#[cfg(test)]
mod tests;

pub use evaluate::{next_bit, output};
pub use plain::Plain;
