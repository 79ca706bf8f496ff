//! From raw parts to a flat netlist.
ghost use Rattle.std.specs.Prelude.{◌≡◌, IfOk, IfErr, map, filter};
ghost use Rattle.net_core.specs.Netlist.{parts_of};
ghost use Rattle.flat_settle.specs.Raw.{IsUnfolded, flat_cell};
ghost use Rattle.flat_settle.specs.Refusals.{HasRepeat, flat_order, IsFaultOf, Settles};
ghost use Rattle.flat_settle.specs.Tables.{stays};
ghost use Rattle.flat_settle.specs.Judged.{IsFirstClockOf, clocked_parts};
ghost use Rattle.net_core.specs.WellFormed.{IsWellFormed};

use crate::driven::{clocked_table, driven_table};
use crate::judge::{Kept, judge};
use crate::keep::{first_clock, has_constant_clock, kept_cells};
use crate::pushes::count_nets;
use crate::raw::{Raw, Unsettled};
use crate::repeats::repeated_name;
use ila_base::{Items, NoMemory};
use net_core::Flat;
use std::alloc::Global;

// The raw parts without the links of undriven net bits.
fn drop_links(alloc: Global, raw: Raw, driven: &[bool]) -> Result<Kept, NoMemory>
    ensures { IfOk result (λ kept. kept ≡ record { groups = raw.groups; cells = map flat_cell (filter (stays driven.now) raw.cells); ports = raw.ports; clock = raw.clock }) }
{
    let Raw {
        groups,
        cells,
        ports,
        clock,
    } = raw;
    let cells = Items::from_vec(kept_cells(alloc, cells, driven)?);
    Ok(Kept {
        groups,
        cells,
        ports,
        clock,
    })
}

// The netlist of kept parts, with the clock of its first cell that has one.
fn build(alloc: Global, kept: Kept) -> Result<Flat, NoMemory>
    requires { (clock : _) → IsFirstClockOf kept clock → IsWellFormed (clocked_parts kept clock) }
    ensures { IfOk result (λ flat. (parts_of flat ≡ clocked_parts kept (parts_of flat).clock) × IsFirstClockOf kept (parts_of flat).clock) }
{
    let Kept {
        groups,
        cells,
        ports,
        clock,
    } = kept;
    let first = first_clock(cells.as_slice(), clock);
    Flat::from_parts(
        alloc,
        groups.into_vec(),
        cells.into_vec(),
        ports.into_vec(),
        first,
    )
}

// The netlist of raw parts in which no name stands twice.
fn settle_distinct(alloc: Global, raw: Raw) -> Result<Flat, Unsettled>
    requires unfolded { IsUnfolded raw }
    requires distinct { ¬ HasRepeat (flat_order raw) }
    ensures settled { IfOk result (λ flat. Settles raw (parts_of flat)) }
    ensures refused { IfErr result (IsFaultOf raw) }
{
    let count = count_nets(raw.groups.as_slice());
    let driven = driven_table(alloc, &raw, count)?;
    let clocked = clocked_table(alloc, &raw, count)?;
    let constant = has_constant_clock(raw.cells.as_slice());
    let kept = drop_links(alloc, raw, driven.as_slice())?;
    match judge(
        alloc,
        &kept,
        driven.as_slice(),
        clocked.as_slice(),
        constant,
        count,
    ) {
        Ok(()) => Ok(build(alloc, kept)?),
        Err(fault) => Err(fault),
    }
}

/// The netlist of raw parts: without the links of undriven net bits, and with the clock of its first
/// cell that has one, or the clock port's bit. It takes time linear in the nets, cells, pins and bytes
/// of names.
///
/// # Errors
///
/// Each refusal comes exactly where its sentence holds and none of those before it does: an identifier
/// or net bit with the name of an earlier one (IEEE 1364-2005, 4.11), a net bit with two sources (4.2),
/// one that is read and not driven, one on a clock pin outside the clock set or a constant there, and a
/// bit of the clock set that is read as data. It has the name of the first in flat order: through the
/// groups, each with its identifier and then its bits, and after them the cells.
pub fn settle(alloc: Global, raw: Raw) -> Result<Flat, Unsettled>
    requires { IsUnfolded raw }
    ensures settled { IfOk result (λ flat. Settles raw (parts_of flat)) }
    ensures refused { IfErr result (IsFaultOf raw) }
{
    match repeated_name(alloc, &raw)? {
        Some(name) => Err(Unsettled::Duplicate(name)),
        None => settle_distinct(alloc, raw),
    }
}
