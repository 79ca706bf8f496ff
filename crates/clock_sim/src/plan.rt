//! The plan of a netlist: its cells and outputs as arrays of numbers.
//!
//! Settling goes through the outputs in the order of levels, and advancing through the cells that store
//! bits, in their own order. So that each reads its arrays from front to back, both have pins of their own:
//! on a large netlist, a jump to another part of an array takes longer than the evaluation of a cell.

use net_core::CellKind;

/// A cell: its kind, the places of its input pins as a part of one list of pins, and the number of its
/// first stored bit.
#[derive(Clone, Copy, Debug)]
pub struct Row {
    pub kind: CellKind,
    /// The first of its pins, and the one behind its last.
    pub first: u32,
    pub last: u32,
    pub base: usize,
}

/// An output pin on a data net: the level of the net, the cell, the pin and the net.
#[derive(Clone, Copy, Debug)]
pub struct Slot {
    pub level: u32,
    pub cell: u32,
    pub out: u32,
    pub net: u32,
}

/// How the bit of an output comes about: the kind of its cell, the places of the cell's input pins as a
/// part of one list of pins, the number of the cell's first stored bit, the output pin and its net.
#[derive(Clone, Copy, Debug)]
pub struct Formula {
    pub kind: CellKind,
    /// The first of the pins, and the one behind the last.
    pub first: usize,
    pub last: usize,
    pub base: usize,
    pub out: u32,
    pub net: u32,
}
