//! Trigger programs: when their conditions are true, which branch they take, and what it does
//! (UG908, trigger state machine language).
#![tactic(auto)]

mod laws;
mod simple;
mod stepping;
#[cfg(test)]
mod tests;
mod truth;
pub mod types;

pub use laws::{basic_is_valid, basic_steps, idle_is_valid, idle_steps, valid_steps};
pub use simple::{basic_program, idle_program};
pub use stepping::step;
