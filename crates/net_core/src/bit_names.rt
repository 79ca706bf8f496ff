//! The name of a net bit.
ghost use Rattle.std.specs.Prelude.{◌≡◌, ◌<◌, ◌≤◌, ◌+◌, ◌-◌, IfOk, length, slice_get, Some};
ghost use Rattle.net_core.specs.Netlist.{net_count};
ghost use Rattle.net_core.specs.WellFormed.{Each, HasRange, bit_names, net_names, range_indices, indexed_name};

use crate::parts::Group;
use ila_base::limits::GREATEST_INDEX;
use ila_base::{Items, Name, NoMemory};
use itoa::Buffer;
use std::alloc::Global;

/// The index of a vector's bit by its place from the left.
pub fn index_at(left: u32, right: u32, place: usize) -> u32
    requires small { (left ≤ GREATEST_INDEX) × (right ≤ GREATEST_INDEX) }
    requires within { place ≤ (left - right) + (right - left) }
    ensures { slice_get (range_indices left right) place ≡ Some result }
{
    if right <= left {
        left - place as u32
    } else {
        left + place as u32
    }
}

/// The name with an index behind it.
pub fn indexed(alloc: Global, front: &[u8], index: u32) -> Result<Name, NoMemory>
    ensures { IfOk result (λ name. name ≡ indexed_name front.now index) }
{
    let mut buffer = Buffer::new();
    let mut bytes = Vec::from_slice(alloc, front)?;
    bytes.push(b'[')?;
    bytes.extend_from_slice(buffer.format(index).as_bytes())?;
    bytes.push(b']')?;
    Name::new(alloc, bytes.as_slice())
}

/// The name of a group's bit by its place from the left.
pub fn group_bit_name(alloc: Global, group: &Group, place: usize) -> Result<Name, NoMemory>
    requires range { HasRange group.now }
    requires within { place < length group.now.bits }
    ensures { IfOk result (λ name. slice_get (bit_names group.now) place ≡ Some name) }
{
    match group.range {
        None => group.name.copied(alloc),
        Some((left, right)) => indexed(alloc, group.name.bytes(), index_at(left, right, place)),
    }
}

/// The name of a net bit by its number.
pub fn bit_name(alloc: Global, groups: &Items<Group>, net: u32) -> Result<Name, NoMemory>
    requires ranges { Each HasRange groups.now }
    requires within { net < net_count groups.now }
    ensures { IfOk result (λ name. slice_get (net_names groups.now) net ≡ Some name) }
{
    let mut place = net as usize;
    for group in groups.as_slice() {
        if place < group.bits.len() {
            return group_bit_name(alloc, group, place);
        }
        place -= group.bits.len();
    }
    Name::new(alloc, b"")
}
