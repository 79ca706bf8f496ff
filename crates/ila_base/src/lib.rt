//! What every crate of the product speaks of: names, places and words of a netlist text, the
//! refusals with their numbers, comparisons of probes, and the sources, sinks and shelves through which a command meets
//! the outside.
#![tactic(auto)]

pub mod bytes;
mod compare;
mod comparison;
mod fault;
mod items;
pub mod limits;
mod mem_shelf;
mod mem_sink;
mod mem_source;
mod memory;
mod name;
mod numeral;
mod outside;
mod place;
mod refusal;
mod schedule;
#[cfg(test)]
mod tests;

pub use compare::{BasicCond, Compare, Digit, Digits, Join, Op, ProbeInfo};
pub use fault::{NetFault, NetStop};
pub use items::Items;
pub use mem_shelf::MemShelf;
pub use mem_sink::MemSink;
pub use mem_source::MemSource;
pub use memory::NoMemory;
pub use name::Name;
pub use numeral::numeral_value;
pub use outside::{Failed, LoadFault, Shelf, Sink, Source, StoreFault, write_all, write_pieces};
pub use place::{Place, Word};
pub use refusal::{
    LimitKind, NetRefusal, ProjRefusal, ResRefusal, SetRefusal, StimRefusal, TsmRefusal,
};
