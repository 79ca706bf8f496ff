//! A module with an instance of another one, with its clock and with one that is no input.
ghost use Rattle.std.specs.Prelude.{IfOk};
ghost use Rattle.vlog_parse.specs.ReadTree.{IsReadTree};

use crate::flatten;
use ila_base::{NetRefusal, NetStop};
use std::alloc::Global;
use std::test::Fail;
use vlog_check::{Checked, check};
use vlog_lex::tokens;
use vlog_parse::{Tree, parse};

// The tree of a text that has one.
fn tree_of(alloc: Global, text: &[u8]) -> Result<Tree, Fail>
    ensures { IfOk result IsReadTree }
{
    let found = match tokens(alloc, text) {
        Ok(found) => found,
        Err(_) => return Err(Fail::from("no tokens")),
    };
    match parse(alloc, text, found.as_slice()) {
        Ok(tree) => Ok(tree),
        Err(_) => Err(Fail::from("no tree")),
    }
}

fn sample(alloc: Global) -> Result<Checked, Fail> {
    let text = b"module leaf(a, y); input a; output y; assign y = a; endmodule \
        module top(c, a, y); input c; input a; output y; leaf i(.a(a), .y(y)); endmodule";
    let tree = tree_of(alloc, text)?;
    match check(alloc, tree, "top") {
        Ok(design) => Ok(design),
        Err(_) => Err(Fail::from("no design")),
    }
}

#[test]
fn links(rt: HostRuntime) -> Result<(), Fail> {
    let design = sample(rt.alloc())?;
    match flatten(rt.alloc(), &design, "c") {
        Ok(flat) => {
            assert!(rt; flat.groups().len() == 5);
            assert!(rt; flat.cells().len() == 3);
            Ok(())
        }
        Err(_) => Err(Fail::from("no netlist")),
    }
}

#[test]
fn no_clock(rt: HostRuntime) -> Result<(), Fail> {
    let design = sample(rt.alloc())?;
    match flatten(rt.alloc(), &design, "y") {
        Err(NetStop::Refused(fault)) => {
            assert!(rt; matches!(fault.refusal, NetRefusal::TopOrClock(_)));
            Ok(())
        }
        _ => Err(Fail::from("no refusal")),
    }
}
