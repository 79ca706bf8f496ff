//! The refusals of a netlist without its dropped links.
ghost use Rattle.std.specs.Prelude.{◌≡◌, ℕ, ◌<◌, IfOk, IfErr, OnOk, length, slice_get, Some};
ghost use Rattle.net_core.specs.Netlist.{net_count};
ghost use Rattle.net_core.specs.WellFormed.{HasRange, net_names};
ghost use Rattle.net_graph.specs.Lists.{Each};
ghost use Rattle.flat_settle.specs.Refusals.{HasTwoSources};
ghost use Rattle.flat_settle.specs.Tables.{IsLeastOf};
ghost use Rattle.flat_settle.specs.Judged.{kept_parts, HasMarks, IsReadUndriven, IsOffClock, IsReadClock, IsJudgedFault, IsJudgedSound, IsClockSound, IsClockFault};

use crate::marks::{first_with, marks_of};
use crate::owners::push_shared;
use crate::pushes::{push_clocks, push_ports, push_reads};
use crate::raw::Unsettled;
use ila_base::{Items, Name, NoMemory};
use net_core::{Cell, Group, NetId, Port, bit_name, driver_table};
use std::alloc::Global;

/// A netlist without its dropped links.
#[derive(Drop)]
pub struct Kept {
    pub groups: Items<Group>,
    pub cells: Items<Cell>,
    pub ports: Items<Port>,
    pub clock: NetId,
}

// The first net bit with two sources.
fn first_shared(alloc: Global, kept: &Kept, count: usize) -> Result<Option<u32>, NoMemory>
    requires { HasMarks kept.now count }
    ensures { IfOk result (IsLeastOf (HasTwoSources (kept_parts kept.now))) }
{
    let mut list = Items::new(alloc);
    push_ports(&mut list, &kept.groups, kept.ports.as_slice(), false)?;
    let inputs = marks_of(alloc, count, list.as_slice())?;
    let table = driver_table(alloc, count, kept.cells.as_slice())?;
    let mut shared = Items::new(alloc);
    push_shared(
        &mut shared,
        table.as_slice(),
        inputs.as_slice(),
        kept.cells.as_slice(),
    )?;
    let marks = marks_of(alloc, count, shared.as_slice())?;
    Ok(first_with(marks.as_slice(), marks.as_slice(), true))
}

// The first net bit that is read and not driven.
fn first_undriven(
    alloc: Global,
    kept: &Kept,
    driven: &[bool],
    count: usize,
) -> Result<Option<u32>, NoMemory>
    requires marks { HasMarks kept.now count }
    requires size { length driven.now ≡ count }
    ensures { IfOk result (IsLeastOf (IsReadUndriven kept.now driven.now)) }
{
    let mut list = Items::new(alloc);
    push_reads(&mut list, kept.cells.as_slice(), true)?;
    push_clocks(&mut list, kept.cells.as_slice())?;
    push_ports(&mut list, &kept.groups, kept.ports.as_slice(), true)?;
    let marks = marks_of(alloc, count, list.as_slice())?;
    Ok(first_with(marks.as_slice(), driven, false))
}

// The first net bit on a clock pin that is outside the clock set.
fn first_off_clock(
    alloc: Global,
    kept: &Kept,
    clocked: &[bool],
    count: usize,
) -> Result<Option<u32>, NoMemory>
    requires marks { HasMarks kept.now count }
    requires size { length clocked.now ≡ count }
    ensures { IfOk result (IsLeastOf (IsOffClock kept.now clocked.now)) }
{
    let mut list = Items::new(alloc);
    push_clocks(&mut list, kept.cells.as_slice())?;
    let marks = marks_of(alloc, count, list.as_slice())?;
    Ok(first_with(marks.as_slice(), clocked, false))
}

// The first net bit of the clock set that is read as data.
fn first_read_clock(
    alloc: Global,
    kept: &Kept,
    clocked: &[bool],
    count: usize,
) -> Result<Option<u32>, NoMemory>
    requires marks { HasMarks kept.now count }
    requires size { length clocked.now ≡ count }
    ensures { IfOk result (IsLeastOf (IsReadClock kept.now clocked.now)) }
{
    let mut list = Items::new(alloc);
    push_reads(&mut list, kept.cells.as_slice(), false)?;
    push_ports(&mut list, &kept.groups, kept.ports.as_slice(), true)?;
    let marks = marks_of(alloc, count, list.as_slice())?;
    Ok(first_with(marks.as_slice(), clocked, true))
}

// The name of a net bit that is there.
fn name_of(alloc: Global, kept: &Kept, net: u32) -> Result<Name, NoMemory>
    requires ranges { Each HasRange kept.now.groups }
    requires within { net < net_count kept.now.groups }
    ensures { IfOk result (λ name. slice_get (net_names kept.now.groups) net ≡ Some name) }
{
    bit_name(alloc, &kept.groups, net)
}

// Whether the two refusals of clocks hold.
fn judge_clocks(
    alloc: Global,
    kept: &Kept,
    clocked: &[bool],
    constant: bool,
    count: usize,
) -> Result<(), Unsettled>
    requires marks { HasMarks kept.now count }
    requires ranges { Each HasRange kept.now.groups }
    requires count { count ≡ net_count kept.now.groups }
    requires clocked { length clocked.now ≡ count }
    ensures sound { OnOk result (IsClockSound kept.now clocked.now constant) }
    ensures refused { IfErr result (IsClockFault kept.now clocked.now constant) }
{
    match first_off_clock(alloc, kept, clocked, count)? {
        Some(net) => return Err(Unsettled::SecondClock(name_of(alloc, kept, net)?)),
        None => {}
    }
    if constant {
        return Err(Unsettled::SecondClock(Name::new(alloc, b"C")?));
    }
    match first_read_clock(alloc, kept, clocked, count)? {
        Some(net) => Err(Unsettled::ClockAsData(name_of(alloc, kept, net)?)),
        None => Ok(()),
    }
}

/// Whether no refusal holds of a netlist, given the tables of its driven net bits and of the clock set,
/// and whether a constant is on a clock pin. It takes time linear in the nets, cells and pins.
pub fn judge(
    alloc: Global,
    kept: &Kept,
    driven: &[bool],
    clocked: &[bool],
    constant: bool,
    count: usize,
) -> Result<(), Unsettled>
    requires marks { HasMarks kept.now count }
    requires ranges { Each HasRange kept.now.groups }
    requires count { count ≡ net_count kept.now.groups }
    requires driven { length driven.now ≡ count }
    requires clocked { length clocked.now ≡ count }
    ensures sound { OnOk result (IsJudgedSound kept.now driven.now clocked.now constant) }
    ensures refused { IfErr result (IsJudgedFault kept.now driven.now clocked.now constant) }
{
    match first_shared(alloc, kept, count)? {
        Some(net) => return Err(Unsettled::ManyDrivers(name_of(alloc, kept, net)?)),
        None => {}
    }
    match first_undriven(alloc, kept, driven, count)? {
        Some(net) => return Err(Unsettled::Undriven(name_of(alloc, kept, net)?)),
        None => {}
    }
    judge_clocks(alloc, kept, clocked, constant, count)
}
