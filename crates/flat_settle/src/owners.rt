//! Net bits with two sources.
ghost use Rattle.std.specs.Prelude.{◌≡◌, ℕ, ◌<◌, ◌↔◌, true, IfOk, OnOk, IsTrue, length, ◌⊎◌};
ghost use Rattle.flat_settle.specs.Tables.{Appends, IsSomewhere, SharedPinHas, SharedHas};
ghost use Rattle.net_core.specs.Drivers.{HasOutput};
ghost use Rattle.net_graph.specs.Lists.{is_marked};

use ila_base::{Items, NoMemory};
use net_core::{Cell, NetId, Output};
use std::alloc::Global;

// Puts the net of an output pin behind a list, where it is an input or has another pin in the table.
fn push_shared_pin(
    list: &mut Items<u32>,
    table: &[Option<Output>],
    inputs: &[bool],
    cell: usize,
    pin: usize,
    out: Option<NetId>,
) -> Result<(), NoMemory>
    ensures { OnOk result (Appends list.old list.new (SharedPinHas table.now inputs.now cell pin out)) }
{
    match out {
        Some(net) if is_shared(table, inputs, cell, pin, net) => list.push(net.0),
        _ => Ok(()),
    }
}

// Whether the net is an input or has another pin in the table.
fn is_shared(table: &[Option<Output>], inputs: &[bool], cell: usize, pin: usize, net: NetId) -> bool
    ensures { IsTrue result ↔ ((is_marked inputs.now net.0 ≡ true) ⊎ (¬ HasOutput table.now net.0 (record { cell = cell; pin = pin }))) }
{
    if inputs.get(net.0 as usize).copied().unwrap_or(false) {
        return true;
    }
    match table.get(net.0 as usize).copied().unwrap_or(None) {
        Some(own) => own.cell != cell || own.pin != pin,
        None => true,
    }
}

// Puts the shared nets of a cell behind a list.
fn push_shared_outs(
    list: &mut Items<u32>,
    table: &[Option<Output>],
    inputs: &[bool],
    cell: usize,
    outs: &[Option<NetId>],
) -> Result<(), NoMemory>
    ensures { OnOk result (Appends list.old list.new (IsSomewhere (SharedPinHas table.now inputs.now cell) outs.now)) }
{
    for (pin, out) in outs.iter().enumerate() {
        push_shared_pin(list, table, inputs, cell, pin, *out)?;
    }
    Ok(())
}

/// Puts the nets of output pins behind a list that are inputs or have another pin in the table.
pub fn push_shared(
    list: &mut Items<u32>,
    table: &[Option<Output>],
    inputs: &[bool],
    cells: &[Cell],
) -> Result<(), NoMemory>
    ensures { OnOk result (Appends list.old list.new (IsSomewhere (SharedHas table.now inputs.now) cells.now)) }
{
    for (number, cell) in cells.iter().enumerate() {
        push_shared_outs(list, table, inputs, number, cell.outs.as_slice())?;
    }
    Ok(())
}
