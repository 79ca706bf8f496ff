//! Flat netlists: what they consist of, what a run of one is, and what a machine over one answers.
#![tactic(auto)]

mod bit_names;
mod bit_split;
mod drivers;
mod flat;
mod kind;
mod limits;
mod lists;
mod machine;
mod names;
mod numbers;
mod parts;
mod places;
mod primitive;
mod tables;
#[cfg(test)]
mod tests;

pub use bit_names::{bit_name, index_at, indexed};
pub use bit_split::split_bit_name;
pub use drivers::{Output, driver_table};
pub use flat::Flat;
pub use kind::{CellKind, GateCode};
pub use limits::{count_name_bytes, count_nets, count_pins};
pub use machine::Machine;
pub use parts::{Cell, CellId, Group, NetId, Pin, Port};
pub use places::net_names;
pub use primitive::{
    CellPort, PortSize, Primitive, Role, names_agree, parameters, port_named, ports,
    primitive_named,
};
