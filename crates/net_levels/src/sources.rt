ghost use Rattle.std.specs.Prelude.{◌≡◌, ℕ, ◌+◌, ◌<◌, ◌^◌, ◌↔◌, true, IfOk, IfSome, IfNone, OnOk, length, slice_get, Some};
ghost use Rattle.net_core.specs.declared.parts.Pin.TheVariants as pins;
ghost use Rattle.net_core.specs.CellTable as table;
ghost use Rattle.net_core.specs.Netlist.{net_count};
ghost use Rattle.net_core.specs.WellFormed.{IsFlat};
ghost use Rattle.net_core.specs.Cycle.{Feeds};
ghost use Rattle.net_graph.specs.Graph.{Leads, node_count};
ghost use Rattle.net_core.specs.Drivers.{AreDrivers};
ghost use Rattle.net_levels.specs.Needs.{IsNeeded, Adds};

use crate::depends::depends;
use ila_base::NoMemory;
use net_core::{Cell, Flat, NetId, Output, Pin};
use net_graph::Graph;
use std::alloc::Global;

// The net on an input pin, if the output pin depends on it.
fn needed(cell: &Cell, output: usize, input: usize) -> Option<NetId>
    ensures found { IfSome result (λ net. (slice_get cell.now.ins input ≡ Some (pins.Net net)) × (table.depends cell.now.kind output input ≡ true)) }
    ensures missing { IfNone result ((net : _) → slice_get cell.now.ins input ≡ Some (pins.Net net) → ¬ (table.depends cell.now.kind output input ≡ true)) }
{
    if !depends(cell.kind, output, input) {
        return None;
    }
    match cell.ins.get(input) {
        Some(Pin::Net(net)) => Some(*net),
        _ => None,
    }
}

// Adds the nets on which an output pin depends.
fn add_needed(sources: &mut Vec<u32>, cell: &Cell, output: usize) -> Result<(), NoMemory>
    ensures { OnOk result (Adds sources.old.items sources.new.items (IsNeeded cell.now output (length cell.now.ins))) }
{
    for input in 0..cell.ins.len() {
        match needed(cell, output, input) {
            Some(net) => sources.push(net.0)?,
            None => {}
        }
    }
    Ok(())
}

// Adds the nets on which a net depends, if it is a data net.
fn add_sources(
    sources: &mut Vec<u32>,
    flat: &Flat,
    drivers: &[Option<Output>],
    net: usize,
) -> Result<(), NoMemory>
    requires low { net < length drivers.now }
    requires few { length drivers.now ≡ net_count flat.now.groups }
    requires named { AreDrivers flat.now.cells (length flat.now.cells) drivers.now }
    ensures { OnOk result (Adds sources.old.items sources.new.items (λ m. Feeds flat.now m net)) }
{
    let cells = flat.cells();
    if flat.is_clock(NetId(net as u32)) {
        return Ok(());
    }
    match drivers[net] {
        Some(own) => add_needed(sources, &cells[own.cell], own.pin),
        None => Ok(()),
    }
}

/// The graph of the nets, in which each data net on an output pin has an edge from each net on which
/// the output depends.
pub fn graph_of(alloc: Global, flat: &Flat, drivers: &[Option<Output>]) -> Result<Graph, NoMemory>
    requires kept { IsFlat flat.now }
    requires few { length drivers.now ≡ net_count flat.now.groups }
    requires named { AreDrivers flat.now.cells (length flat.now.cells) drivers.now }
    ensures size { IfOk result (λ graph. node_count graph ≡ net_count flat.now.groups) }
    ensures edges { IfOk result (λ graph. (m n : ℕ) → Leads graph m n ↔ Feeds flat.now m n) }
{
    let mut starts = vec![in alloc; 0usize]?;
    let mut sources = Vec::new(alloc);
    for net in 0..drivers.len() {
        add_sources(&mut sources, flat, drivers, net)?;
        starts.push(sources.len())?;
    }
    Ok(Graph { starts, sources })
}
