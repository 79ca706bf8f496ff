//! What a hierarchy of modules means, and that the flat netlist that it is unfolded to means the same.
//! There are definitions and laws here and nothing that runs.
#![tactic(auto)]

mod laws;

pub use laws::{
    bits_carried, bits_have_numbers, elaborates, has_counts, one_fault, one_flat, one_order,
    one_run_carried, order_is_whole, ports_of_flat, raw_is_unfolded,
};
