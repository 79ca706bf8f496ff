//! A checked hierarchy unfolded: its nets, cells and links under flat names, with all links as cells.
#![tactic(auto)]

mod cells;
mod deep;
mod exprs;
mod gates;
mod groups;
mod leaves;
mod places;
mod plan;
mod ports;
mod prefix;
mod raw;
mod read_plan;
mod shape;
mod state;
mod steps;
mod whole;

pub use plan::read_directions;
pub use raw::unfold;
