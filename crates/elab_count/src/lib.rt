//! How large the modules of a hierarchy are with all that is below them, in numbers that are computed
//! and never counted out: a short text may stand for more cells than any memory holds. And the law
//! that these numbers are those of the design that the hierarchy stands for.
#![tactic(auto)]

mod amounts;
mod every;
mod exprs;
mod graph;
mod items;
mod laws;

pub use amounts::{Count, Counts};
pub use every::count_all;
pub use laws::counts_are_amounts;
