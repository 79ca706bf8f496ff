//! The first name in flat order that an earlier one equals.
ghost use Rattle.std.specs.Prelude.{◌≡◌, ℕ, ◌+◌, ◌-◌, ◌^◌, ◌<◌, ◌≤◌, List, [], ◌∷◌, ◌++◌, map, flat_map, IfOk, OnOk, MatchOption, MatchBool, length, Some, slice_get};
ghost use Rattle.net_core.specs.WellFormed.{HasRange, IsIdentifier, bit_names, range_indices, indexed_name};
ghost use Rattle.net_graph.specs.Lists.{Each, IsIn};
ghost use Rattle.net_core.specs.declared.parts.Group.{Group as GroupOf};
ghost use Rattle.flat_settle.specs.Raw.{IsUnfolded};
ghost use Rattle.flat_settle.specs.Refusals.{Named, Identifier, BitName, group_names, cell_names, flat_order, HasRepeat, IsFirstRepeat};
ghost use Rattle.flat_settle.specs.Naming.{AreSeen, Sees, RepeatsAfter};

use crate::numbers::Numbers;
use crate::raw::{Raw, RawCell};
use crate::seen::{Seen, see_bit, see_form, see_identifier, see_whole, split};
use ila_base::limits::GREATEST_INDEX;
use ila_base::{Name, NoMemory};
use indexmap::IndexSet;
use net_core::{Group, index_at, indexed};
use std::alloc::Global;

// Meets the bit of a scalar, whose name may have the form of a vector's bit.
fn see_scalar<'a>(seen: &mut Seen<'a>, number: usize, name: &'a [u8]) -> Result<bool, NoMemory>
    requires at { slice_get seen.old.fronts number ≡ Some name.now }
    requires few { length seen.old.fronts < 2 ^ 30 }
    requires spelled { IsIdentifier name.now }
    ensures { IfOk result (λ there. (names : List Named) → AreSeen seen.old names → Sees seen.new names (BitName name.now) there) }
{
    match split(name) {
        Some((front, index)) => see_form(seen, front, index),
        None => see_whole(seen, number, name),
    }
}

// Meets the bits of a vector, whose name has this number, and answers the name of the first that was
// met before.
fn see_vector(
    alloc: Global,
    seen: &mut Seen,
    number: usize,
    front: &[u8],
    left: u32,
    right: u32,
    count: usize,
) -> Result<Option<Name>, NoMemory>
    requires at { slice_get seen.old.fronts number ≡ Some front.now }
    requires few { length seen.old.fronts < 2 ^ 30 }
    requires small { (left ≤ GREATEST_INDEX) × (right ≤ GREATEST_INDEX) }
    requires count { count ≡ (left - right) + (right - left) + 1 }
    ensures { IfOk result (λ found. (names : List Named) → AreSeen seen.old names → MatchOption found (AreSeen seen.new (names ++ map BitName (map (indexed_name front.now) (range_indices left right)))) (λ name. RepeatsAfter names (map BitName (map (indexed_name front.now) (range_indices left right))) name)) }
{
    for place in 0..count {
        let index = index_at(left, right, place);
        if see_bit(seen, number, front, index)? {
            return Ok(Some(indexed(alloc, front, index)?));
        }
    }
    Ok(None)
}

// Meets the bits of a group, whose name has this number.
fn see_bits<'a>(
    alloc: Global,
    seen: &mut Seen<'a>,
    number: usize,
    group: &'a Group,
) -> Result<Option<Name>, NoMemory>
    requires at { slice_get seen.old.fronts number ≡ Some group.now.name }
    requires few { length seen.old.fronts < 2 ^ 30 }
    requires range { HasRange group.now }
    requires spelled { IsIdentifier group.now.name }
    ensures { IfOk result (λ found. (names : List Named) → AreSeen seen.old names → MatchOption found (AreSeen seen.new (names ++ map BitName (bit_names group.now))) (λ name. RepeatsAfter names (map BitName (bit_names group.now)) name)) }
{
    match group.range {
        Some((left, right)) => see_vector(
            alloc,
            seen,
            number,
            group.name.bytes(),
            left,
            right,
            group.bits.len(),
        ),
        None => {
            if see_scalar(seen, number, group.name.bytes())? {
                Ok(Some(group.name.copied(alloc)?))
            } else {
                Ok(None)
            }
        }
    }
}

// Meets a group's identifier and then its bits. The group's name is numbered once.
fn see_group<'a>(
    alloc: Global,
    seen: &mut Seen<'a>,
    group: &'a Group,
) -> Result<Option<Name>, NoMemory>
    requires range { HasRange group.now }
    requires spelled { IsIdentifier group.now.name }
    requires few { length seen.old.fronts + 1 < 2 ^ 30 }
    ensures { IfOk result (λ found. (names : List Named) → AreSeen seen.old names → MatchOption found (AreSeen seen.new (names ++ group_names group.now)) (λ name. RepeatsAfter names (group_names group.now) name)) }
{
    let (there, number) = see_identifier(seen, group.name.bytes())?;
    if there {
        return Ok(Some(group.name.copied(alloc)?));
    }
    see_bits(alloc, seen, number, group)
}

// Meets the groups, from nothing on.
fn see_groups<'a>(
    alloc: Global,
    seen: &mut Seen<'a>,
    groups: &'a [Group],
) -> Result<Option<Name>, NoMemory>
    requires start { AreSeen seen.old [] }
    requires ranges { Each HasRange groups.now }
    requires spelled { Each (λ (group : GroupOf). IsIdentifier group.name) groups.now }
    requires few { length (flat_map group_names groups.now) < 2 ^ 30 }
    ensures { IfOk result (λ found. MatchOption found (AreSeen seen.new (flat_map group_names groups.now)) (λ name. RepeatsAfter [] (flat_map group_names groups.now) name)) }
{
    for group in groups {
        match see_group(alloc, seen, group)? {
            Some(name) => return Ok(Some(name)),
            None => {}
        }
    }
    Ok(None)
}

// Meets a cell's identifier, if it has one.
fn see_cell<'a>(
    alloc: Global,
    seen: &mut Seen<'a>,
    cell: &'a RawCell,
) -> Result<Option<Name>, NoMemory>
    requires { length seen.old.fronts < 2 ^ 30 }
    ensures few { OnOk result (length seen.new.fronts ≤ length seen.old.fronts + 1) }
    ensures sees { IfOk result (λ found. (names : List Named) → AreSeen seen.old names → MatchOption found (AreSeen seen.new (names ++ cell_names (cell.now ∷ []))) (λ name. (cell.now.name ≡ Some name) × IsIn names (Identifier name))) }
{
    match &cell.name {
        Some(name) => {
            let (there, _number) = see_identifier(seen, name.bytes())?;
            if there {
                Ok(Some(name.copied(alloc)?))
            } else {
                Ok(None)
            }
        }
        None => Ok(None),
    }
}

// Meets the cells.
fn see_cells<'a>(
    alloc: Global,
    seen: &mut Seen<'a>,
    cells: &'a [RawCell],
) -> Result<Option<Name>, NoMemory>
    requires { length seen.old.fronts + length cells.now < 2 ^ 30 }
    ensures { IfOk result (λ found. (names : List Named) → AreSeen seen.old names → MatchOption found (AreSeen seen.new (names ++ cell_names cells.now)) (λ name. RepeatsAfter names (cell_names cells.now) name)) }
{
    for cell in cells {
        match see_cell(alloc, seen, cell)? {
            Some(name) => return Ok(Some(name)),
            None => {}
        }
    }
    Ok(None)
}

/// The first name in flat order that an earlier one equals. It takes time linear in the bytes of the
/// names and in the net bits.
pub fn repeated_name(alloc: Global, raw: &Raw) -> Result<Option<Name>, NoMemory>
    requires { IsUnfolded raw.now }
    ensures { IfOk result (λ found. MatchOption found (¬ HasRepeat (flat_order raw.now)) (λ name. IsFirstRepeat (flat_order raw.now) name)) }
{
    let mut seen = Seen {
        fronts: Numbers::new(alloc),
        identifiers: Vec::new(alloc),
        scalars: Vec::new(alloc),
        keys: IndexSet::new(alloc),
    };
    match see_groups(alloc, &mut seen, raw.groups.as_slice())? {
        Some(name) => Ok(Some(name)),
        None => see_cells(alloc, &mut seen, raw.cells.as_slice()),
    }
}
