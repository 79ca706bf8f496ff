//! Directed graphs of numbered nodes: numbers that rise along the edges, or a cycle;
//! which nodes lead to given ones; and the first that leads to itself.
#![tactic(auto)]

mod components;
mod cycle;
mod graph;
mod order;
mod reach;
mod recurrent;
mod search;

pub use graph::{Graph, Order};
pub use order::ranks;
pub use reach::reaching;
pub use recurrent::least_recurrent;
