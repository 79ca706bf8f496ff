//! Reads a stimulus: a header line that names the data inputs of a design, and for each clock a line
//! with a hexadecimal word for each of them.
#![tactic(auto)]

mod faults;
mod header;
mod inputs;
mod laws;
mod layout;
mod line_reader;
mod ports;
mod row;
mod stim;
#[cfg(test)]
mod tests;

pub use faults::{StimFault, StimStop};
pub use inputs::{DataInput, Field};
pub use laws::{inputs_have_names, one_refusal, rows_are_one, rows_are_read, rows_are_taken};
pub use ports::data_inputs;
pub use stim::Stim;
