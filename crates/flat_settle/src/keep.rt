//! The cells that are kept: all but the links of undriven net bits.
ghost use Rattle.std.specs.Prelude.{◌≡◌, ◌↔◌, IfOk, IsTrue, map, filter, filter_map, slice_get, MatchOption};
ghost use Rattle.net_core.specs.declared.parts.Cell.{Cell as CellOf};
ghost use Rattle.flat_settle.specs.Raw.{clock_net, flat_cell};
ghost use Rattle.flat_settle.specs.Refusals.{HasConstantClock};
ghost use Rattle.flat_settle.specs.Refusals as constants;
ghost use Rattle.flat_settle.specs.Tables.{stays};

use crate::raw::RawCell;
use ila_base::{Items, NoMemory};
use net_core::{Cell, NetId, Pin};
use std::alloc::Global;

// Whether the cell stays, by the table of driven net bits.
fn is_kept(cell: &RawCell, driven: &[bool]) -> bool
    ensures { result ≡ stays driven.now cell.now }
{
    if !cell.link {
        return true;
    }
    match cell.ins.get(0) {
        Some(Pin::Net(net)) => driven.get(net.0 as usize).copied().unwrap_or(false),
        _ => true,
    }
}

// The net on a clock pin.
fn net_of(clock: Option<Pin>) -> Option<NetId>
    ensures { result ≡ clock_net clock }
{
    match clock {
        Some(Pin::Net(net)) => Some(net),
        _ => None,
    }
}

// The cell without its mark as a link.
fn flat(cell: RawCell) -> Cell
    ensures { result ≡ flat_cell cell }
{
    let RawCell {
        link: _,
        kind,
        name,
        ins,
        outs,
        clock,
    } = cell;
    Cell {
        kind,
        name,
        ins,
        outs,
        clock: net_of(clock),
    }
}

/// The cells that stay, in their order.
pub fn kept_cells(
    alloc: Global,
    cells: Items<RawCell>,
    driven: &[bool],
) -> Result<Vec<Cell>, NoMemory>
    ensures { IfOk result (λ kept. kept.items ≡ map flat_cell (filter (stays driven.now) cells)) }
{
    let mut kept = Vec::new(alloc);
    for cell in cells.into_vec() {
        if is_kept(&cell, driven) {
            kept.push(flat(cell))?;
        }
    }
    Ok(kept)
}

// Whether this is a constant.
fn is_constant(clock: Option<Pin>) -> bool
    ensures { result ≡ constants.is_constant clock }
{
    matches!(clock, Some(Pin::Zero) | Some(Pin::One))
}

/// Whether a constant is on a clock pin.
pub fn has_constant_clock(cells: &[RawCell]) -> bool
    ensures { IsTrue result ↔ HasConstantClock cells.now }
{
    for cell in cells {
        if is_constant(cell.clock) {
            return true;
        }
    }
    false
}

/// The clock of the first cell that has one, or the given one where none has.
pub fn first_clock(cells: &[Cell], clock: NetId) -> NetId
    ensures { MatchOption (slice_get (filter_map (λ (cell : CellOf). cell.clock) cells.now) 0) (result ≡ clock) (λ net. result ≡ net) }
{
    for cell in cells {
        match cell.clock {
            Some(net) => return net,
            None => {}
        }
    }
    clock
}
