//! The tables of a netlist: which net bits are driven, and which carry the clock.
ghost use Rattle.std.specs.Prelude.{◌≡◌, ℕ, ◌<◌, ◌^◌, ◌≤◌, ◌↔◌, ◌==◌, true, false, List, IfOk, IfSome, IfNone, length, map, slice_get, slice_index, slice_index_or, Some, All};
ghost use Rattle.std.specs.List.{range_with_len};
ghost use Rattle.net_core.specs.Netlist.{net_count, HasDriver, Drives, Reads, IsIn, IsBuffered, input_bits, IsDriven, Parts};
ghost use Rattle.net_core.specs.Tables.{IsOn, IsAmongNets, IsInputOf, IsBufferInput, IsBufferFrom, AddsMarks, Writes, AreSources, AreBack, IsClockTable, IsDrivenTable};
ghost use Rattle.net_core.specs.declared.parts.Cell.{Cell as CellOf};

use crate::lists::item_at;
use crate::parts::{Cell, Group, NetId, Pin, Port};
use ila_base::NoMemory;
use ila_base::limits::NETS;
use std::alloc::Global;

// Marks the nets.
fn mark_nets(marks: &mut Vec<bool>, nets: &[NetId])
    requires { (n : ℕ) → IsAmongNets nets.now n → n < length marks.old.items }
    ensures { AddsMarks marks.old.items marks.new.items (IsAmongNets nets.now) }
{
    for net in nets {
        marks[net.0 as usize] = true;
    }
}

// Marks the nets of output pins.
fn mark_outs(marks: &mut Vec<bool>, outs: &[Option<NetId>])
    requires { (n : ℕ) → IsOn outs.now n → n < length marks.old.items }
    ensures { AddsMarks marks.old.items marks.new.items (IsOn outs.now) }
{
    for out in outs {
        match out {
            Some(net) => marks[net.0 as usize] = true,
            None => {}
        }
    }
}

// Marks the bits of an input port.
fn mark_port(marks: &mut Vec<bool>, groups: &[Group], port: &Port)
    requires { (n : ℕ) → IsInputOf groups.now port.now n → n < length marks.old.items }
    ensures { AddsMarks marks.old.items marks.new.items (IsInputOf groups.now port.now) }
{
    if port.output {
        return;
    }
    match item_at(groups, port.group as usize) {
        Some(group) => mark_nets(marks, group.bits.as_slice()),
        None => {}
    }
}

// Marks the bits of the input ports.
fn mark_inputs(marks: &mut Vec<bool>, groups: &[Group], ports: &[Port])
    requires { (n p : ℕ) (port : _) → slice_get ports.now p ≡ Some port → IsInputOf groups.now port n → n < length marks.old.items }
    ensures { AddsMarks marks.old.items marks.new.items (λ n. (p : ℕ) × (port : _) × (slice_get ports.now p ≡ Some port) × IsInputOf groups.now port n) }
{
    for port in ports {
        mark_port(marks, groups, port);
    }
}

// Marks the nets on output pins of the cells.
fn mark_outputs(marks: &mut Vec<bool>, cells: &[Cell])
    requires { (n : ℕ) → HasDriver cells.now n → n < length marks.old.items }
    ensures { AddsMarks marks.old.items marks.new.items (HasDriver cells.now) }
{
    for cell in cells {
        mark_outs(marks, cell.outs.as_slice());
    }
}

// The net that a clock buffer reads.
fn buffer_input(cell: &Cell) -> Option<NetId>
    ensures found { IfSome result (λ net. IsBufferInput cell.now net.0) }
    ensures missing { IfNone result ((m : ℕ) → ¬ IsBufferInput cell.now m) }
{
    if !cell.kind.is_clock_buffer() {
        return None;
    }
    match cell.ins.get(0) {
        Some(Pin::Net(net)) => Some(*net),
        _ => None,
    }
}

// Writes the source for each net on the output pins.
fn feed(sources: &mut Vec<u32>, outs: &[Option<NetId>], source: u32)
    requires { (n : ℕ) → IsOn outs.now n → n < length sources.old.items }
    ensures { Writes sources.old.items sources.new.items (IsOn outs.now) source }
{
    for out in outs {
        match out {
            Some(net) => sources[net.0 as usize] = source,
            None => {}
        }
    }
}

// The numbers below this one, from 0.
fn numbers_below(alloc: Global, count: u32) -> Result<Vec<u32>, NoMemory>
    ensures { IfOk result (λ numbers. numbers.items ≡ range_with_len 0 count) }
{
    let mut numbers = Vec::with_capacity(alloc, count as usize)?;
    for number in 0..count {
        numbers.push(number)?;
    }
    Ok(numbers)
}

// For each net the net from which a clock buffer makes it, or itself.
fn net_sources(alloc: Global, count: u32, cells: &[Cell]) -> Result<Vec<u32>, NoMemory>
    requires { (n : ℕ) → HasDriver cells.now n → n < count }
    ensures { IfOk result (λ sources. AreSources cells.now count sources.items) }
{
    let mut sources = numbers_below(alloc, count)?;
    for cell in cells {
        match buffer_input(cell) {
            Some(net) => feed(&mut sources, cell.outs.as_slice(), net.0),
            None => {}
        }
    }
    Ok(sources)
}

// For each net the source of its source.
fn sources_of_sources(alloc: Global, sources: &[u32]) -> Result<Vec<u32>, NoMemory>
    requires { All (λ source. source < length sources.now) sources.now }
    ensures { IfOk result (λ twice. twice.items ≡ map (λ source. slice_index sources.now source) sources.now) }
{
    Ok(
        sources
            .iter()
            .map(|source| sources[*source as usize])
            .collect(alloc)?,
    )
}

// For each net the net that 2^20 clock buffers back. There are no more nets than that, so none is
// further back. It takes twenty passes over the nets.
fn origins(alloc: Global, sources: Vec<u32>) -> Result<Vec<u32>, NoMemory>
    requires { All (λ source. source < length sources.items) sources.items }
    ensures { IfOk result (λ back. AreBack sources.items (2 ^ 20) back.items) }
{
    let mut back = sources;
    for _round in 0..20u32 {
        back = sources_of_sources(alloc, back.as_slice())?;
    }
    Ok(back)
}

// Which numbers are the one at a place.
fn same_as(alloc: Global, numbers: &[u32], place: usize) -> Result<Vec<bool>, NoMemory>
    requires { place < length numbers.now }
    ensures { IfOk result (λ table. table.items ≡ map (λ other. other == slice_index numbers.now place) numbers.now) }
{
    let number = numbers[place];
    Ok(numbers.iter().map(|other| *other == number).collect(alloc)?)
}

/// Which net bits carry the clock: those that clock buffers make of the net without a driver from
/// which they make `clock`. It takes time linear in the cells and pins and twenty passes over the
/// nets.
pub fn clock_table(
    alloc: Global,
    count: u32,
    cells: &[Cell],
    clock: NetId,
) -> Result<Vec<bool>, NoMemory>
    requires few { count ≤ NETS }
    requires driven { (n : ℕ) → HasDriver cells.now n → n < count }
    requires read { (c i m : ℕ) (cell : _) → Reads cells.now c cell i m → m < count }
    requires one_driver { (c d k l n : ℕ) (a b : _) → Drives cells.now c a k n → Drives cells.now d b l n → c ≡ d }
    requires clock { clock.0 < count }
    ensures { IfOk result (λ table. IsClockTable cells.now count clock.0 table.items) }
{
    let sources = net_sources(alloc, count, cells)?;
    let back = origins(alloc, sources)?;
    same_as(alloc, back.as_slice(), clock.0 as usize)
}

/// Which net bits are driven: the bits of input ports and those on output pins. It takes time linear
/// in the nets, cells and pins.
pub fn driven_table(
    alloc: Global,
    count: usize,
    groups: &[Group],
    cells: &[Cell],
    ports: &[Port],
) -> Result<Vec<bool>, NoMemory>
    requires inputs { (n p : ℕ) (port : _) → slice_get ports.now p ≡ Some port → IsInputOf groups.now port n → n < count }
    requires driven { (n : ℕ) → HasDriver cells.now n → n < count }
    ensures { IfOk result (λ table. IsDrivenTable groups.now cells.now ports.now count table.items) }
{
    let mut driven = vec![in alloc; false; count]?;
    mark_inputs(&mut driven, groups, ports);
    mark_outputs(&mut driven, cells);
    Ok(driven)
}
