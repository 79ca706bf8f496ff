//! The product as one call: the words of a command line, a shelf of files, the stimulus, the trace
//! and the error sink go in, and a status with its cause comes out.
#![tactic(auto)]

mod code;
mod ending;
mod form;
mod laws;
mod line;
mod load;
mod netlist;
mod sim;
mod simulate;
mod status;
mod top;

pub use ending::{exit_code, plain, report};
pub use laws::sim_is_exact;
pub use status::{Ended, Status};
pub use top::ila;

#[cfg(test)]
mod tests;
