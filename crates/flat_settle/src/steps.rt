//! The steps from net to net: along links for the driven bits, along clock buffers for the clock set.
ghost use Rattle.std.specs.Prelude.{◌≡◌, ℕ, ◌<◌, ◌≤◌, ◌^◌, ◌↔◌, true, List, IfOk, IfSome, IfNone, OnOk, length, slice_get, Some};
ghost use Rattle.net_graph.specs.Lists.{IsIn, is_marked};
ghost use Rattle.net_core.specs.Tables.{IsOn};
ghost use Rattle.net_graph.specs.Graph.{Leads, node_count};
ghost use Rattle.flat_settle.specs.Tables.{LeadsFrom, IsStep, Appends, AreSteps, Spreads, row_of};

use crate::raw::RawCell;
use ila_base::{Items, NoMemory};
use net_core::{NetId, Pin};
use net_graph::{Graph, reaching};
use std::alloc::Global;

// The net from which the cell leads on: for the clock set each clock buffer does, else each link.
fn leads_from(cell: &RawCell, clock: bool) -> Option<NetId>
    ensures found { IfSome result (λ net. LeadsFrom clock cell.now net.0) }
    ensures missing { IfNone result ((m : ℕ) → ¬ LeadsFrom clock cell.now m) }
{
    let leads = if clock {
        cell.kind.is_clock_buffer()
    } else {
        cell.link
    };
    if !leads {
        return None;
    }
    match cell.ins.get(0) {
        Some(Pin::Net(net)) => Some(*net),
        _ => None,
    }
}

// Puts the nets of output pins behind a list.
pub fn push_outs(list: &mut Items<u32>, outs: &[Option<NetId>]) -> Result<(), NoMemory>
    ensures { OnOk result (Appends list.old list.new (IsOn outs.now)) }
{
    for out in outs {
        match out {
            Some(net) => list.push(net.0)?,
            None => {}
        }
    }
    Ok(())
}

// So many empty rows.
fn no_rows(alloc: Global, count: usize) -> Result<Vec<Items<u32>>, NoMemory>
    ensures size { IfOk result (λ rows. length rows.items ≡ count) }
    ensures none { IfOk result (λ rows. (m n : ℕ) → ¬ IsIn (row_of rows.items m) n) }
{
    let mut rows = Vec::with_capacity(alloc, count)?;
    for _node in 0..count {
        rows.push(Items::new(alloc))?;
    }
    Ok(rows)
}

// For each net the row of the nets to which a step leads from it.
fn step_rows(
    alloc: Global,
    count: usize,
    cells: &[RawCell],
    clock: bool,
) -> Result<Vec<Items<u32>>, NoMemory>
    requires { (c m : ℕ) (cell : _) → slice_get cells.now c ≡ Some cell → LeadsFrom clock cell m → m < count }
    ensures { IfOk result (λ rows. AreSteps clock cells.now (length cells.now) count rows.items) }
{
    let mut rows = no_rows(alloc, count)?;
    for cell in cells {
        match leads_from(cell, clock) {
            Some(net) => push_outs(&mut rows[net.0 as usize], cell.outs.as_slice())?,
            None => {}
        }
    }
    Ok(rows)
}

// The graph in which the nodes of a node's row lead to it.
fn graph_of(alloc: Global, rows: &[Items<u32>]) -> Result<Graph, NoMemory>
    requires few { length rows.now < 2 ^ 32 }
    requires nodes { (m n : ℕ) → IsIn (row_of rows.now m) n → n < length rows.now }
    ensures size { IfOk result (λ graph. node_count graph ≡ length rows.now) }
    ensures edges { IfOk result (λ graph. (m n : ℕ) → Leads graph m n ↔ IsIn (row_of rows.now n) m) }
{
    let mut starts = vec![in alloc; 0usize]?;
    let mut sources = Vec::new(alloc);
    for row in rows {
        sources.extend_from_slice(row.as_slice())?;
        starts.push(sources.len())?;
    }
    Ok(Graph { starts, sources })
}

/// What the steps of the cells make of the ends: a mark for each net. It takes time linear in the nets,
/// cells and pins.
pub fn spread(
    alloc: Global,
    count: usize,
    cells: &[RawCell],
    clock: bool,
    ends: &[u32],
) -> Result<Vec<bool>, NoMemory>
    requires few { count < 2 ^ 32 }
    requires from { (c m : ℕ) (cell : _) → slice_get cells.now c ≡ Some cell → LeadsFrom clock cell m → m < count }
    requires to { (m n : ℕ) → IsStep clock cells.now m n → n < count }
    requires ends { (n : ℕ) → IsIn ends.now n → n < count }
    ensures size { IfOk result (λ marks. length marks.items ≡ count) }
    ensures marked { IfOk result (λ marks. (n : ℕ) → (is_marked marks.items n ≡ true) ↔ Spreads clock cells.now ends.now n) }
{
    let rows = step_rows(alloc, count, cells, clock)?;
    let graph = graph_of(alloc, rows.as_slice())?;
    reaching(alloc, &graph, ends)
}
