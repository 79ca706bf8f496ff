//! The names of net bits by their numbers.
ghost use Rattle.std.specs.Prelude.{◌≡◌, ◌<◌, ◌++◌, IfOk, OnOk, Some, map, slice_get, length};
ghost use Rattle.net_core.specs.Netlist.{net_count, numbers};
ghost use Rattle.net_core.specs.WellFormed.{Each, HasRange};
ghost use Rattle.net_core.specs.WellFormed as flat;
ghost use Rattle.net_core.specs.Places.{ArePlaces, group_places};

use crate::bit_names::group_bit_name;
use crate::parts::{Group, NetId};
use ila_base::{Items, Name, NoMemory};
use std::alloc::Global;

// Where a net bit stands: the number of its group, and its place there from the left.
#[derive(Clone, Copy, Debug, Drop)]
pub struct BitPlace {
    pub group: usize,
    pub place: usize,
}

// Puts the places of a group's bits behind the table.
fn push_places(table: &mut Items<BitPlace>, group: usize, count: usize) -> Result<(), NoMemory>
    ensures { OnOk result (table.new ≡ table.old ++ group_places group count) }
{
    for place in 0..count {
        table.push(BitPlace { group, place })?;
    }
    Ok(())
}

// The places of all net bits, by their numbers.
fn bit_places(alloc: Global, groups: &[Group]) -> Result<Items<BitPlace>, NoMemory>
    ensures { IfOk result (ArePlaces groups.now (length groups.now)) }
{
    let mut table = Items::new(alloc);
    for (number, group) in groups.iter().enumerate() {
        push_places(&mut table, number, group.bits.len())?;
    }
    Ok(table)
}

// The name of a net bit by its number and the table.
fn name_of(
    alloc: Global,
    groups: &[Group],
    table: &[BitPlace],
    net: NetId,
) -> Result<Name, NoMemory>
    requires ranges { Each HasRange groups.now }
    requires places { ArePlaces groups.now (length groups.now) table.now }
    requires within { net.0 < net_count groups.now }
    ensures { IfOk result (λ name. slice_get (flat.net_names groups.now) net.0 ≡ Some name) }
{
    let own = table[net.0 as usize];
    group_bit_name(alloc, &groups[own.group], own.place)
}

/// The names of net bits by their numbers. It takes time linear in the groups, their bits and the names.
pub fn net_names(alloc: Global, groups: &[Group], nets: &[NetId]) -> Result<Items<Name>, NoMemory>
    requires ranges { Each HasRange groups.now }
    requires within { Each (λ n. n < net_count groups.now) (numbers nets.now) }
    ensures { IfOk result (λ names. map Some names ≡ map (slice_get (flat.net_names groups.now)) (numbers nets.now)) }
{
    let table = bit_places(alloc, groups)?;
    let mut names = Items::new(alloc);
    for net in nets {
        names.push(name_of(alloc, groups, table.as_slice(), *net)?)?;
    }
    Ok(names)
}
