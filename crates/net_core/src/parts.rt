//! What a flat netlist consists of: nets by number, cells, groups of nets under one name, and ports.

use crate::kind::CellKind;
use ila_base::{Items, Name};

/// A net bit, by its number in flat order from 0.
#[derive(Clone, Copy, Debug, PartialEq, Eq, PartialOrd, Ord, Hash)]
pub struct NetId(pub u32);

/// A cell, by its place in `Flat::cells`.
#[derive(Clone, Copy, Debug, PartialEq, Eq, PartialOrd, Ord, Hash)]
pub struct CellId(pub u32);

/// What an input pin reads.
#[derive(Clone, Copy, Debug, PartialEq, Eq)]
pub enum Pin {
    Net(NetId),
    Zero,
    One,
}

/// A gate or primitive. `ins` and `outs` have the pins in the order that `CellKind` tells.
#[derive(Debug, Drop)]
pub struct Cell {
    pub kind: CellKind,
    /// The flat identifier of the instance. Only a gate may have none.
    pub name: Option<Name>,
    pub ins: Items<Pin>,
    /// The net of each output pin. `None` is an open pin.
    pub outs: Items<Option<NetId>>,
    /// The net on the C pin of a register or memory.
    pub clock: Option<NetId>,
}

/// The bits of one declared net: a scalar, or a vector with its range.
#[derive(Debug, Drop)]
pub struct Group {
    /// The flat identifier.
    pub name: Name,
    /// The left and right index of a vector (IEEE 1364-2005, 3.3.1), or `None` for a scalar.
    pub range: Option<(u32, u32)>,
    /// The net numbers of the bits, the leftmost first.
    pub bits: Items<NetId>,
}

/// A port of the top: the number of its group, and whether it is an output.
#[derive(Clone, Copy, Debug, PartialEq, Eq)]
pub struct Port {
    pub group: u32,
    pub output: bool,
}
