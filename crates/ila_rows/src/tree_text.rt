//! A tree as the rows write it: a line for each module and each item, with the place of each name and
//! constant behind an `@`.

use crate::design::tree_of;
use crate::fault::Fault;
use crate::line::Line;
use crate::outcome::Outcome;
use crate::refusal_text::placed_text;
use crate::table::Entry;
use ila_base::{Name, Place};
use std::alloc::Global;
use vlog_parse::{Conns, Decl, Dir, Expr, Gate, Inst, Item, Module, Tree, Value};

/// Gives the tree of a row's text, or its refusal.
pub fn tree(alloc: Global, entry: &Entry<'_>, outcome: &mut Outcome) -> Result<(), Fault> {
    let value = match tree_of(alloc, entry.bytes("text")) {
        Ok(tree) => tree_text(alloc, &tree)?,
        Err(stop) => placed_text(alloc, stop)?,
    };
    outcome.push("tree", value)
}

/// Gives for each module of a row's text a line with its name and how many ports and items it has.
pub fn sizes(alloc: Global, entry: &Entry<'_>, outcome: &mut Outcome) -> Result<(), Fault> {
    let value = match tree_of(alloc, entry.bytes("text")) {
        Ok(tree) => size_text(alloc, &tree)?,
        Err(stop) => placed_text(alloc, stop)?,
    };
    outcome.push("sizes", value)
}

fn tree_text(alloc: Global, tree: &Tree) -> Result<Vec<u8>, Fault> {
    let mut line = Line::new(alloc);
    for module in tree.modules.as_slice() {
        write_module(&mut line, module)?;
    }
    Ok(line.into_bytes())
}

fn size_text(alloc: Global, tree: &Tree) -> Result<Vec<u8>, Fault> {
    let mut line = Line::new(alloc);
    for module in tree.modules.as_slice() {
        line.bytes(module.name.bytes())?;
        line.bytes(b" ")?;
        line.number(module.ports.len() as u64)?;
        line.bytes(b" ")?;
        line.number(module.items.len() as u64)?;
        line.bytes(b"\n")?;
    }
    Ok(line.into_bytes())
}

fn write_module(line: &mut Line, module: &Module) -> Result<(), Fault> {
    line.bytes(b"module")?;
    line.word(&module.name)?;
    write_place(line, module.place)?;
    for port in module.ports.as_slice() {
        line.word(port)?;
    }
    line.bytes(b"\n")?;
    write_items(line, module.items.as_slice())
}

fn write_items(line: &mut Line, items: &[Item]) -> Result<(), Fault> {
    for item in items {
        write_item(line, item)?;
        line.bytes(b"\n")?;
    }
    Ok(())
}

fn write_place(line: &mut Line, place: Place) -> Result<(), Fault> {
    line.bytes(b"@")?;
    line.place(place)
}

fn write_item(line: &mut Line, item: &Item) -> Result<(), Fault> {
    match item {
        Item::Net(decl) => write_decl(line, decl),
        Item::Assign(target, value) => {
            line.bytes(b"assign")?;
            write_expr(line, target)?;
            write_expr(line, value)
        }
        Item::Gate(gate) => write_gate(line, gate),
        Item::Inst(inst) => write_instance(line, inst),
    }
}

fn write_decl(line: &mut Line, decl: &Decl) -> Result<(), Fault> {
    line.bytes(match decl.dir {
        Some(Dir::Input) => b"input".as_slice(),
        Some(Dir::Output) => b"output".as_slice(),
        None => b"wire".as_slice(),
    })?;
    if let Some(range) = decl.range {
        line.span(range.left, range.right)?;
    }
    line.word(&decl.name)?;
    write_place(line, decl.place)
}

fn write_gate(line: &mut Line, gate: &Gate) -> Result<(), Fault> {
    line.bytes(b"gate")?;
    if let Some(name) = &gate.name {
        line.word(name)?;
    }
    write_place(line, gate.place)?;
    write_exprs(line, gate.args.as_slice())
}

fn write_instance(line: &mut Line, inst: &Inst) -> Result<(), Fault> {
    line.bytes(b"inst")?;
    line.word(&inst.module)?;
    line.word(&inst.name)?;
    write_place(line, inst.place)?;
    for (name, value) in inst.params.as_slice() {
        line.bytes(b" #")?;
        line.bytes(name.bytes())?;
        line.bytes(b"=")?;
        write_parameter(line, *value)?;
    }
    match &inst.conns {
        Conns::ByName(pins) => write_pins(line, pins.as_slice()),
        Conns::ByPlace(exprs) => {
            line.bytes(b" by place")?;
            write_exprs(line, exprs.as_slice())
        }
    }
}

fn write_parameter(line: &mut Line, value: Value) -> Result<(), Fault> {
    match value {
        Value::Whole(number) => line.number(u64::from(number)),
        Value::Sized(packed) => line.constant(packed.width(), packed.word().value),
        Value::Text => line.bytes(b"text"),
    }
}

fn write_pins(line: &mut Line, pins: &[(Name, Option<Expr>)]) -> Result<(), Fault> {
    line.bytes(b" by name")?;
    for (name, expr) in pins {
        line.bytes(b" .")?;
        line.bytes(name.bytes())?;
        if let Some(expr) = expr {
            write_expr(line, expr)?;
        }
    }
    Ok(())
}

fn write_exprs(line: &mut Line, exprs: &[Expr]) -> Result<(), Fault> {
    for expr in exprs {
        write_expr(line, expr)?;
    }
    Ok(())
}

fn write_expr(line: &mut Line, expr: &Expr) -> Result<(), Fault> {
    match expr {
        Expr::Whole(name, place) => {
            line.word(name)?;
            write_place(line, *place)
        }
        Expr::Bit(name, index, place) => {
            line.word(name)?;
            line.bytes(b"[")?;
            line.number(u64::from(*index))?;
            line.bytes(b"]")?;
            write_place(line, *place)
        }
        Expr::Part(name, left, right, place) => {
            line.word(name)?;
            line.span(*left, *right)?;
            write_place(line, *place)
        }
        Expr::Const(packed, place) => {
            line.bytes(b" ")?;
            line.constant(packed.width(), packed.word().value)?;
            write_place(line, *place)
        }
        Expr::Concat(parts) => {
            line.bytes(b" {")?;
            for part in parts.as_slice() {
                write_expr(line, part)?;
            }
            line.bytes(b" }")
        }
    }
}
