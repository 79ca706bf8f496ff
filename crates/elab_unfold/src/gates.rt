ghost use Rattle.std.specs.Prelude.{◌≡◌, ℕ, ◌+◌, ◌-◌, ◌<◌, ◌^◌, ◌++◌, min, map, if◌then◌else◌, IfOk, OnOk};
ghost use Rattle.std.specs.List.{flat_map};
ghost use Rattle.elab_design.specs.Design.{Path, Bit, sources};
ghost use Rattle.elab_design.specs.DesignCells as design;
ghost use Rattle.elab_design.specs.Raw.{pin, raw_cell};
ghost use Rattle.elab_unfold.specs.Places.{own_width, ArePlaces, AreSound, Fits, gate_ins, gate_outs};

use crate::cells::push_outs;
use crate::exprs::push_pins;
use crate::places::Places;
use flat_settle::RawCell;
use ila_base::{Items, Name, NoMemory};
use net_core::{CellKind, GateCode, Pin};
use std::alloc::Global;
use vlog_parse::{Expr, Gate, GateKind};

fn code_of(kind: GateKind) -> GateCode
    ensures { result ≡ design.gate_code kind }
{
    match kind {
        GateKind::And => GateCode::And,
        GateKind::Nand => GateCode::Nand,
        GateKind::Or => GateCode::Or,
        GateKind::Nor => GateCode::Nor,
        GateKind::Xor => GateCode::Xor,
        GateKind::Xnor => GateCode::Xnor,
        GateKind::Buf => GateCode::Buf,
        GateKind::Not => GateCode::Not,
    }
}

// Whether the last terminal is the input. Of the other gates the first one is the output.
fn is_last_input(kind: GateKind) -> bool
    ensures { result ≡ design.is_last_input kind }
{
    match kind {
        GateKind::Buf | GateKind::Not => true,
        _ => false,
    }
}

fn push_terminals(
    places: &Places,
    base: u32,
    args: &[Expr],
    out: &mut Items<Pin>,
) -> Result<(), NoMemory>
    requires places { ArePlaces places.now }
    requires room { base + own_width places.now.holder.now < 2 ^ 32 }
    requires sound { AreSound places.now.holder.now args.now }
    ensures { OnOk result ((path : Path) (number : Bit → ℕ) → Fits places.now.holder.now path base number → out.new ≡ out.old ++ map (pin number) (flat_map (sources places.now.holder.now path) args.now)) }
{
    for e in args {
        push_pins(places, base, e, out)?;
    }
    Ok(())
}

// How many of the terminals stand before the place where inputs and outputs meet.
fn border_of(kind: GateKind, count: usize) -> usize
    ensures { result ≡ (if design.is_last_input kind then count - 1 else min 1 count) }
{
    if count == 0 {
        0
    } else if is_last_input(kind) {
        count - 1
    } else {
        1
    }
}

// The inputs of a gate.
fn inputs_of(kind: GateKind, terminals: &[Pin]) -> &[Pin]
    ensures { result.now ≡ gate_ins kind terminals.now }
{
    &terminals[border_of(kind, terminals.len())..]
}

// The outputs of a gate.
fn outputs_of(kind: GateKind, terminals: &[Pin]) -> &[Pin]
    ensures { result.now ≡ gate_outs kind terminals.now }
{
    &terminals[..border_of(kind, terminals.len())]
}

/// The cell of a gate, with this name.
pub fn gate_cell(
    alloc: Global,
    places: &Places,
    base: u32,
    gate: &Gate,
    name: Option<Name>,
) -> Result<RawCell, NoMemory>
    requires places { ArePlaces places.now }
    requires room { base + own_width places.now.holder.now < 2 ^ 32 }
    requires sound { AreSound places.now.holder.now gate.now.args }
    ensures { IfOk result (λ cell. (path : Path) (number : Bit → ℕ) → Fits places.now.holder.now path base number → cell ≡ record (raw_cell number (design.gate_cell places.now.holder.now path gate.now)) { name = name }) }
{
    let mut terminals = Items::new(alloc);
    push_terminals(places, base, gate.args.as_slice(), &mut terminals)?;
    let ins = Items::from_slice(alloc, inputs_of(gate.kind, terminals.as_slice()))?;
    let mut outs = Items::new(alloc);
    push_outs(outputs_of(gate.kind, terminals.as_slice()), &mut outs)?;
    Ok(RawCell {
        link: false,
        kind: CellKind::Gate(code_of(gate.kind)),
        name,
        ins,
        outs,
        clock: None,
    })
}
