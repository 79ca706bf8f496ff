//! What the names of a checked hierarchy stand for: its modules by their numbers, and their nets in
//! order.
#![tactic(auto)]

mod nets;
mod numbers;

pub use nets::{Nets, read_all_nets};
pub use numbers::{Modules, Part, part_of, read_modules};
