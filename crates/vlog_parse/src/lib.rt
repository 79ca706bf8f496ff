//! The grammar of structural Verilog: the tree of modules that a list of tokens stands for
//! (IEEE 1364-2005, clauses 4, 5, 6, 7 and 12), in this profile, or the first place at which it
//! stands for none.
#![tactic(auto)]

mod concatenation;
mod expressions;
mod gates;
mod header;
mod instances;
mod items;
mod laws;
mod lexeme;
mod limits;
mod list;
mod modules;
mod params;
mod parser;
mod parts;
mod skip;
mod sort;
mod source;
#[cfg(test)]
mod tests;
mod tree;

pub use laws::{one_refusal, one_tree, own_places, read_trees};
pub use source::parse;
pub use tree::{Conns, Decl, Dir, Expr, Gate, GateKind, Inst, Item, Module, Range, Tree, Value};
