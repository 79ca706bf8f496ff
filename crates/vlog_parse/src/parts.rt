//! What rules of the grammar give before it stands in the tree.

use crate::tree::{Conns, Decl, Expr, Item};
use ila_base::{Items, Name, Place};

/// A name and its place.
#[derive(Debug, Drop)]
pub struct Named {
    pub name: Name,
    pub place: Place,
}

/// A port in an ANSI header (IEEE 1364-2005, 12.3.4): a declaration, or a bare name that carries the
/// direction and the range before it.
#[derive(Debug, Drop)]
pub enum PortPart {
    Declared(Decl),
    Bare(Named),
}

/// The ports of a module's header: their names, and the items that declare them.
#[derive(Debug, Drop)]
pub struct Header {
    pub names: Items<Name>,
    pub items: Items<Item>,
}

/// One gate of a list: its name, if it has one, its place and its terminals (7.1).
#[derive(Debug, Drop)]
pub struct Terminals {
    pub name: Option<Name>,
    pub place: Place,
    pub args: Items<Expr>,
}

/// One instance of a list: its name and place, and what its pins are connected to (12.1.2).
#[derive(Debug, Drop)]
pub struct Linked {
    pub name: Name,
    pub place: Place,
    pub conns: Conns,
}
