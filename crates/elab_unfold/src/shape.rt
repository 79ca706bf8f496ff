use crate::places::{Net, Places};
use vlog_check::Primitive;
use vlog_parse::{Expr, Gate, Inst, Range, Tree};

/// An item that unfolds to cells of its module alone.
#[derive(Clone, Copy)]
pub enum Own<'a> {
    Assign(&'a Expr, &'a Expr),
    Gate(&'a Gate),
    Leaf(Primitive, &'a Inst),
}

/// An item that unfolds to something. An instance of a module has the module's number.
#[derive(Clone, Copy)]
pub enum Step<'a> {
    Own(Own<'a>),
    Inside(usize, &'a Inst),
}

/// A name of a header: whether it is an output, and the place of its net.
#[derive(Clone, Copy, Debug)]
pub struct PortNet<'a> {
    pub name: &'a [u8],
    pub output: bool,
    pub net: Option<Net>,
}

/// A module that is unfolded: its nets and ports, and its items that unfold to something, in order.
#[derive(Drop)]
pub struct Shape<'a> {
    /// Its nets in order, each with its range.
    pub order: &'a [(&'a [u8], Option<Range>)],
    pub places: Places<'a>,
    pub ports: Vec<PortNet<'a>>,
    pub steps: Vec<Step<'a>>,
    /// How many net bits it has with all below it.
    pub size: u64,
    /// How deep its instances go.
    pub depth: u64,
}

/// The modules of a design while they are unfolded.
#[derive(Drop)]
pub struct Plan<'a> {
    pub tree: &'a Tree,
    /// The top's name.
    pub name: &'a [u8],
    pub clock: &'a [u8],
    /// The top's number.
    pub top: usize,
    /// The shapes of the modules by their numbers. Those that aren't below the top have nothing in them.
    pub shapes: Vec<Shape<'a>>,
}
