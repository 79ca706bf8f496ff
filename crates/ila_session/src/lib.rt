//! The clock loop: the rows of a stimulus are simulated one after the other, and a text of the run is
//! written clock by clock, as the values of the outputs.
#![tactic(auto)]

mod clock_text;
mod fault;
mod outputs;
mod pieces;
mod plan;
mod session;

pub use clock_text::ClockText;
pub use fault::SessionFault;
pub use session::{show, show_text};
