//! The data inputs of a netlist.

ghost use Rattle.std.specs.Prelude.{◌≡◌, ◌<◌, ◌≤◌, ◌++◌, ◌^◌, ◌&&◌, not, nat_lt, if◌then◌else◌, filter, length, sum, IfOk, OnOk, Some, None};
ghost use Rattle.std.specs.Option.{option_to_list};
ghost use Rattle.net_core.specs.Netlist.{is_clock, input_nets};
ghost use Rattle.stim_read.specs.Ports.{data_inputs};
ghost use Rattle.stim_read.specs.Stimulus.{AreNames, names_of, widths_of};

use crate::inputs::DataInput;
use ila_base::NoMemory;
use net_core::{Flat, Group, NetId};
use std::alloc::Global;

// How many of the nets do not carry the clock.
fn count_data(flat: &Flat, nets: &[NetId]) -> usize
    ensures value { result ≡ length (filter (λ net. not (is_clock flat.now net.0)) nets.now) }
    ensures bound { result ≤ length nets.now }
{
    nets.iter().filter(|net| !flat.is_clock(**net)).count()
}

// The data input that a port with this group is, where it is one.
fn input_of(
    alloc: Global,
    flat: &Flat,
    output: bool,
    group: &Group,
) -> Result<Option<DataInput>, NoMemory>
    requires { length group.now.bits < 2 ^ 32 }
    ensures { IfOk result (λ found. let width = length (filter (λ net. not
        (is_clock flat.now net.0)) group.now.bits) in
        found ≡ (if not output && nat_lt 0 width then Some (record { name = group.now.name; width = width }) else None)) }
{
    let width = count_data(flat, group.bits.as_slice());
    if output || width == 0 {
        return Ok(None);
    }
    let name = group.name.copied(alloc)?;
    Ok(Some(DataInput {
        name,
        width: width as u32,
    }))
}

// Puts what was found behind the list.
fn push_found(inputs: &mut Vec<DataInput>, found: Option<DataInput>) -> Result<(), NoMemory>
    ensures { OnOk result (inputs.new.items ≡ inputs.old.items ++ option_to_list found) }
{
    if let Some(input) = found {
        inputs.push(input)?;
    }
    Ok(())
}

/// The data inputs of a netlist, in port order: its input ports but the clock's.
pub fn data_inputs(alloc: Global, flat: &Flat) -> Result<Vec<DataInput>, NoMemory>
    ensures value { IfOk result (λ inputs. inputs.items ≡ data_inputs flat.now) }
    ensures names { OnOk result (AreNames (names_of (data_inputs flat.now))) }
    ensures size { OnOk result (sum (widths_of (data_inputs flat.now)) ≡ length
        (input_nets flat.now)) }
{
    let groups = flat.groups();
    let mut inputs = Vec::new(alloc);
    for port in flat.ports() {
        let group = &groups[port.group as usize];
        let found = input_of(alloc, flat, port.output, group)?;
        push_found(&mut inputs, found)?;
    }
    Ok(inputs)
}
