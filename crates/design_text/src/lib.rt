//! What a simulation shows of a design, and that its flat netlist shows the same. There are definitions
//! and laws here and nothing that runs.
#![tactic(auto)]

mod laws;

pub use laws::{inputs_agree, shows_design, shows_text};
