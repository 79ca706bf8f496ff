ghost use Rattle.std.specs.Prelude.{IfOk};
ghost use Rattle.vlog_parse.specs.ReadTree.{IsReadTree};

use elab_flat::flatten;
use ila_base::NetStop;
use net_core::Flat;
use std::alloc::Global;
use vlog_check::{Checked, check};
use vlog_lex::tokens;
use vlog_parse::{Tree, parse};

/// The tree of a text.
pub fn tree_of(alloc: Global, text: &[u8]) -> Result<Tree, NetStop>
    ensures { IfOk result IsReadTree }
{
    let found = tokens(alloc, text)?;
    parse(alloc, text, found.as_slice())
}

/// The design of a text with a top of this name.
pub fn design_of(alloc: Global, text: &[u8], top: &str) -> Result<Checked, NetStop> {
    let tree = tree_of(alloc, text)?;
    check(alloc, tree, top)
}

/// The flat netlist of a text with a top and a clock of these names.
pub fn flat_of(alloc: Global, text: &[u8], top: &str, clock: &str) -> Result<Flat, NetStop> {
    let design = design_of(alloc, text, top)?;
    flatten(alloc, &design, clock)
}
