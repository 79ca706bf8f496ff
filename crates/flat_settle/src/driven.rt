//! Which net bits are driven, and which are in the clock set.
ghost use Rattle.std.specs.Prelude.{◌≡◌, ℕ, ◌^◌, ◌<◌, ◌↔◌, true, length, IfOk, OnOk, IsTrue};
ghost use Rattle.net_core.specs.Netlist.{net_count};
ghost use Rattle.flat_settle.specs.Raw.{IsUnfolded};
ghost use Rattle.flat_settle.specs.Driven.{IsDriven, IsClocked};
ghost use Rattle.flat_settle.specs.Tables.{Appends, IsSomewhere, IsSeedCell, SeedHas};
ghost use Rattle.net_graph.specs.Lists.{is_marked};

use crate::pushes::push_ports;
use crate::raw::{Raw, RawCell};
use crate::steps::{push_outs, spread};
use ila_base::{Items, NoMemory};
use net_core::Pin;
use std::alloc::Global;

// Whether the cell drives its outputs whatever it reads: it is no link, or one with a constant.
fn is_seed(cell: &RawCell) -> bool
    ensures { IsTrue result ↔ IsSeedCell cell.now }
{
    if !cell.link {
        return true;
    }
    match cell.ins.get(0) {
        Some(Pin::Zero) | Some(Pin::One) => true,
        _ => false,
    }
}

// Puts the nets that such a cell drives behind a list.
fn push_seed(list: &mut Items<u32>, cell: &RawCell) -> Result<(), NoMemory>
    ensures { OnOk result (Appends list.old list.new (SeedHas 0 cell.now)) }
{
    if is_seed(cell) {
        push_outs(list, cell.outs.as_slice())
    } else {
        Ok(())
    }
}

// Puts the nets that such cells drive behind a list.
fn push_seeds(list: &mut Items<u32>, cells: &[RawCell]) -> Result<(), NoMemory>
    ensures { OnOk result (Appends list.old list.new (IsSomewhere SeedHas cells.now)) }
{
    for cell in cells {
        push_seed(list, cell)?;
    }
    Ok(())
}

/// Which net bits are driven. It takes time linear in the nets, cells and pins.
pub fn driven_table(alloc: Global, raw: &Raw, count: usize) -> Result<Vec<bool>, NoMemory>
    requires unfolded { IsUnfolded raw.now }
    requires count { count ≡ net_count raw.now.groups }
    ensures size { IfOk result (λ marks. length marks.items ≡ count) }
    ensures marked { IfOk result (λ marks. (n : ℕ) → (is_marked marks.items n ≡ true) ↔ IsDriven raw.now n) }
{
    let mut seeds = Items::new(alloc);
    push_ports(&mut seeds, &raw.groups, raw.ports.as_slice(), false)?;
    push_seeds(&mut seeds, raw.cells.as_slice())?;
    spread(alloc, count, raw.cells.as_slice(), false, seeds.as_slice())
}

/// Which net bits are in the clock set. It takes time linear in the nets, cells and pins.
pub fn clocked_table(alloc: Global, raw: &Raw, count: usize) -> Result<Vec<bool>, NoMemory>
    requires unfolded { IsUnfolded raw.now }
    requires count { count ≡ net_count raw.now.groups }
    ensures size { IfOk result (λ marks. length marks.items ≡ count) }
    ensures marked { IfOk result (λ marks. (n : ℕ) → (is_marked marks.items n ≡ true) ↔ IsClocked raw.now n) }
{
    let ends = [raw.clock.0];
    spread(alloc, count, raw.cells.as_slice(), true, &ends)
}
