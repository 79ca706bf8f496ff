//! The tree of a netlist's text. Names are without the `\` of an escaped one, and each place is that
//! of a name's or constant's first byte, if nothing else is said.

use ila_base::{Items, Name, Place};
use vlog_lex::PackedWord;

/// The modules of a text, in its order (IEEE 1364-2005, 12.1).
#[derive(Debug, Drop)]
pub struct Tree {
    pub modules: Items<Module>,
}

/// A module: its name, the names in its header in order, and its items in order. The ports of an
/// ANSI header stand as declarations before the first item (12.3.4).
#[derive(Debug, Drop)]
pub struct Module {
    pub name: Name,
    /// That of the module's name.
    pub place: Place,
    pub ports: Items<Name>,
    pub items: Items<Item>,
}

/// An item of a module. A declaration of several names, an assign of several pairs, and a list of
/// several gates or instances are several items in order.
#[derive(Debug, Drop)]
pub enum Item {
    Net(Decl),
    /// A continuous assignment (6.1): its target and then its value.
    Assign(Expr, Expr),
    Gate(Gate),
    Inst(Inst),
}

/// The declaration of one name as a port, or as a net by `wire` (4.2.2, 12.3.2, 12.3.3).
#[derive(Debug, Drop)]
pub struct Decl {
    pub name: Name,
    /// That of the declared name.
    pub place: Place,
    /// `None` where the declaration begins with `wire`.
    pub dir: Option<Dir>,
    /// `None` for a scalar.
    pub range: Option<Range>,
}

/// The indices of a vector's leftmost and rightmost bits (4.3).
#[derive(Clone, Copy, Debug, PartialEq, Eq)]
pub struct Range {
    pub left: u32,
    pub right: u32,
}

/// The direction of a port (12.3.3).
#[derive(Clone, Copy, Debug, PartialEq, Eq)]
pub enum Dir {
    Input,
    Output,
}

/// A gate (7.1): its terminals in order.
#[derive(Debug, Drop)]
pub struct Gate {
    pub kind: GateKind,
    pub name: Option<Name>,
    /// That of the gate's name, or of its `(` where it has none.
    pub place: Place,
    pub args: Items<Expr>,
}

/// The kinds of gates (7.2, 7.3).
#[derive(Clone, Copy, Debug, PartialEq, Eq)]
pub enum GateKind {
    And,
    Nand,
    Or,
    Nor,
    Xor,
    Xnor,
    Buf,
    Not,
}

/// An instance of a module or cell (12.1.2), with its parameters by name (12.2.2.2).
#[derive(Debug, Drop)]
pub struct Inst {
    /// The name of the module or cell.
    pub module: Name,
    pub name: Name,
    /// That of the instance's name.
    pub place: Place,
    pub params: Items<(Name, Value)>,
    pub conns: Conns,
}

/// The value of a parameter.
#[derive(Clone, Copy, Debug, PartialEq, Eq)]
pub enum Value {
    /// An unsized number (3.5.1).
    Whole(u32),
    /// A sized constant (3.5.1).
    Sized(PackedWord),
    /// A string (3.6), whose bytes aren't kept.
    Text,
}

/// What the pins of an instance are connected to (12.3.5, 12.3.6).
#[derive(Debug, Drop)]
pub enum Conns {
    /// By the names of the pins. `None` is an open pin. An empty list of connections is one by
    /// name, without pins.
    ByName(Items<(Name, Option<Expr>)>),
    /// By the order of the pins.
    ByPlace(Items<Expr>),
}

/// An expression (5.1.14, 5.2.1): a net, one bit or a part of it, a constant, or a concatenation
/// whose first part is the most significant.
#[derive(Debug, Drop)]
pub enum Expr {
    Whole(Name, Place),
    /// The bit with this index.
    Bit(Name, u32, Place),
    /// The bits from the left index to the right one.
    Part(Name, u32, u32, Place),
    Const(PackedWord, Place),
    Concat(Items<Expr>),
}
