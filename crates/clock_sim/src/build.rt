//! The plan of a netlist is made: its rows of cells and its registers, its slots in the order of levels,
//! and the bits at clock 0.
ghost use Rattle.std.specs.Prelude.{◌≡◌, ℕ, ◌<◌, ◌≤◌, ◌^◌, ◌+◌, List, [], ◌∷◌, ◌++◌, Some, IfOk, IfSome, OnOk, not, filter, map, length, sum_by, slice_get, slice_index};
ghost use Rattle.std.specs.List.Sorted.{IsPermutation, IsNonDecreasingBy};
ghost use Rattle.clock_sim.specs.declared.plan.Row.{Row as RowOf};
ghost use Rattle.clock_sim.specs.declared.plan.Slot.{Slot as SlotOf};
ghost use Rattle.net_core.specs.CellTable as kinds;
ghost use Rattle.net_core.specs.Netlist.{Netlist, input_nets, net_count, numbers as numbers_of, port_nets, is_clock};
ghost use Rattle.net_core.specs.WellFormed.{IsFlat};
ghost use Rattle.net_core.specs.Cycle.{IsRanked};
ghost use Rattle.net_core.specs.declared.parts.Cell.{Cell as CellOf};
ghost use Rattle.clock_sim.specs.Reading.{place_of, places_of};
ghost use Rattle.clock_sim.specs.Plan.{base_of, stored_bit, row_of, AreRowsTo, AreRegisters, AreFormulasTo, AreSlots, IsPlan, HasConstants, IsStartTo, cell_slots, all_slots};

use crate::bits::Bits;
use crate::plan::{Formula, Row, Slot};
use ila_base::NoMemory;
use ila_base::limits::{CELLS, PINS};
use net_core::{Cell, CellKind, Flat, NetId, Pin, Port};
use net_levels::types::Levels;
use std::alloc::Global;

// The place of what a pin reads.
fn place(pin: Pin) -> u32
    requires { place_of pin < 2 ^ 32 }
    ensures { result ≡ place_of pin }
{
    match pin {
        Pin::Net(net) => net.0 + 2,
        Pin::Zero => 0,
        Pin::One => 1,
    }
}

// Adds the places of the pins.
fn push_places(places: &mut Vec<u32>, ins: &[Pin]) -> Result<(), NoMemory>
    requires { (i : ℕ) (pin : _) → slice_get ins.now i ≡ Some pin → place_of pin < 2 ^ 32 }
    ensures { OnOk result (places.new.items ≡ places.old.items ++ places_of ins.now) }
{
    for pin in ins {
        places.push(place(*pin))?;
    }
    Ok(())
}

// Adds the row of a cell, and the places of its pins.
fn push_row(
    places: &mut Vec<u32>,
    rows: &mut Vec<Row>,
    cell: &Cell,
    base: usize,
) -> Result<(), NoMemory>
    requires few { length places.old.items + length cell.now.ins < 2 ^ 32 }
    requires nets { (i : ℕ) (pin : _) → slice_get cell.now.ins i ≡ Some pin → place_of pin < 2 ^ 32 }
    ensures pins { OnOk result (places.new.items ≡ places.old.items ++ places_of cell.now.ins) }
    ensures row { OnOk result (rows.new.items ≡ rows.old.items ++ row_of cell.now (length places.old.items) base ∷ []) }
{
    let first = places.len() as u32;
    push_places(places, cell.ins.as_slice())?;
    let last = places.len() as u32;
    rows.push(Row {
        kind: cell.kind,
        first,
        last,
        base,
    })?;
    Ok(())
}

/// The rows of the cells, with the places of their pins in one list. It takes time linear in the cells
/// and pins.
pub fn push_rows(
    places: &mut Vec<u32>,
    rows: &mut Vec<Row>,
    cells: &[Cell],
) -> Result<usize, NoMemory>
    requires start { (places.old.items ≡ []) × (rows.old.items ≡ []) }
    requires few { length cells.now ≤ CELLS }
    requires pins { sum_by (λ (cell : CellOf). length cell.ins) cells.now ≤ PINS }
    requires allowed { (c : ℕ) (cell : _) → slice_get cells.now c ≡ Some cell → kinds.IsAllowed cell.kind }
    requires nets { (c i : ℕ) (cell : _) (pin : _) → slice_get cells.now c ≡ Some cell → slice_get cell.ins i ≡ Some pin → place_of pin < 2 ^ 32 }
    ensures { IfOk result (λ base. AreRowsTo cells.now (length cells.now) places.new.items rows.new.items base) }
{
    let mut base = 0usize;
    for cell in cells {
        push_row(places, rows, cell, base)?;
        base += cell.kind.content_size();
    }
    Ok(base)
}

/// The registers, which are the rows of the cells that store bits, with the places of their pins in a list
/// of their own. It takes time linear in the cells and pins.
pub fn push_registers(
    places: &mut Vec<u32>,
    registers: &mut Vec<Row>,
    cells: &[Cell],
) -> Result<(), NoMemory>
    requires start { (places.old.items ≡ []) × (registers.old.items ≡ []) }
    requires few { length cells.now ≤ CELLS }
    requires pins { sum_by (λ (cell : CellOf). length cell.ins) cells.now ≤ PINS }
    requires allowed { (c : ℕ) (cell : _) → slice_get cells.now c ≡ Some cell → kinds.IsAllowed cell.kind }
    requires nets { (c i : ℕ) (cell : _) (pin : _) → slice_get cells.now c ≡ Some cell → slice_get cell.ins i ≡ Some pin → place_of pin < 2 ^ 32 }
    ensures { OnOk result (AreRegisters cells.now places.new.items registers.new.items) }
{
    let mut base = 0usize;
    for cell in cells {
        let size = cell.kind.content_size();
        let stores = size > 0;
        if stores {
            push_row(places, registers, cell, base)?;
        }
        base += size;
    }
    Ok(())
}

/// The first stored bit of each row.
pub fn first_bits(alloc: Global, rows: &[Row]) -> Result<Vec<usize>, NoMemory>
    ensures { IfOk result (λ bases. bases.items ≡ map (λ (row : RowOf). row.base) rows.now) }
{
    let mut bases = Vec::new(alloc);
    for row in rows {
        bases.push(row.base)?;
    }
    Ok(bases)
}

// Adds a slot for each data output of a cell.
fn push_cell_slots(
    slots: &mut Vec<Slot>,
    flat: &Flat,
    levels: &Levels,
    outs: &[Option<NetId>],
    cell: u32,
) -> Result<(), NoMemory>
    requires size { length levels.now ≡ net_count flat.now.groups }
    requires nets { (k n : ℕ) → slice_get outs.now k ≡ Some (Some (record { 0 = n })) → n < net_count flat.now.groups }
    requires few { length outs.now < 2 ^ 32 }
    ensures { OnOk result (slots.new.items ≡ slots.old.items ++ cell_slots flat.now levels.now cell 0 outs.now) }
{
    for (out, net) in outs.iter().enumerate() {
        match net {
            Some(net) if !flat.is_clock(*net) => slots.push(Slot {
                level: levels.number(*net),
                cell,
                out: out as u32,
                net: net.0,
            })?,
            _ => {}
        }
    }
    Ok(())
}

/// The slots of the data outputs, in the order of levels.
pub fn ordered_slots(alloc: Global, flat: &Flat, levels: &Levels) -> Result<Vec<Slot>, NoMemory>
    requires size { length levels.now ≡ net_count flat.now.groups }
    requires ranked { IsRanked flat.now (slice_index levels.now) }
    ensures { IfOk result (λ slots. AreSlots flat.now (slice_index levels.now) slots.items) }
{
    let mut slots = Vec::new(alloc);
    for (number, cell) in flat.cells().iter().enumerate() {
        push_cell_slots(
            &mut slots,
            flat,
            levels,
            cell.outs.as_slice(),
            number as u32,
        )?;
    }
    sort_by_level(&mut slots)?;
    Ok(slots)
}

// Puts the slots in the order of levels.
fn sort_by_level(slots: &mut Vec<Slot>) -> Result<(), NoMemory>
    ensures permutation { OnOk result (IsPermutation slots.old.items slots.new.items) }
    ensures sorted { OnOk result (IsNonDecreasingBy (λ (slot : SlotOf). slot.level) slots.new.items) }
{
    slots.sort_by_key(|slot| slot.level)?;
    Ok(())
}

/// The formulas of the slots, in their order, with the places of their pins in one list. It takes time
/// linear in the slots and their pins.
pub fn push_formulas(
    places: &mut Vec<u32>,
    formulas: &mut Vec<Formula>,
    pins: &[u32],
    rows: &[Row],
    slots: &[Slot],
) -> Result<(), NoMemory>
    requires start { formulas.old.items ≡ [] }
    requires ranges { (c : ℕ) (row : _) → slice_get rows.now c ≡ Some row → (row.first ≤ row.last) × (row.last ≤ length pins.now) }
    requires cells { (j : ℕ) (slot : _) → slice_get slots.now j ≡ Some slot → slot.cell < length rows.now }
    ensures { OnOk result (AreFormulasTo pins.now rows.now slots.now (length slots.now) places.new.items formulas.new.items) }
{
    for slot in slots {
        let row = rows[slot.cell as usize];
        let first = places.len();
        places.extend_from_slice(&pins[row.first as usize..row.last as usize])?;
        let last = places.len();
        formulas.push(Formula {
            kind: row.kind,
            first,
            last,
            base: row.base,
            out: slot.out,
            net: slot.net,
        })?;
    }
    Ok(())
}

// Adds those of the nets that carry no clock.
fn push_data(nets: &mut Vec<u32>, flat: &Flat, bits: &[NetId]) -> Result<(), NoMemory>
    ensures { OnOk result (nets.new.items ≡ nets.old.items ++ filter (λ n. not (is_clock flat.now n)) (numbers_of bits.now)) }
{
    for net in bits {
        if !flat.is_clock(*net) {
            nets.push(net.0)?;
        }
    }
    Ok(())
}

// Adds the data bits of a port.
fn push_port(nets: &mut Vec<u32>, flat: &Flat, port: &Port) -> Result<(), NoMemory>
    ensures { OnOk result (nets.new.items ≡ nets.old.items ++ filter (λ n. not (is_clock flat.now n)) (port_nets flat.now.groups port.now)) }
{
    match flat.groups().get(port.group as usize) {
        Some(group) => push_data(nets, flat, group.bits.as_slice()),
        None => Ok(()),
    }
}

/// The data bits of the inputs, in port order.
pub fn data_inputs(alloc: Global, flat: &Flat) -> Result<Vec<u32>, NoMemory>
    ensures { IfOk result (λ nets. nets.items ≡ input_nets flat.now) }
{
    let mut nets = Vec::new(alloc);
    for port in flat.ports() {
        if !port.output {
            push_port(&mut nets, flat, port)?;
        }
    }
    Ok(nets)
}

/// The bits at the places before the first clock: all are 0 but the constant 1.
pub fn start_values(alloc: Global, count: usize) -> Result<Vec<bool>, NoMemory>
    requires { count < 2 ^ 32 }
    ensures size { IfOk result (λ values. length values.items ≡ count + 2) }
    ensures constants { IfOk result (λ values. HasConstants values.items) }
{
    let mut values = vec![in alloc; false; count + 2]?;
    values[1] = true;
    Ok(values)
}

// The bit that each stored bit of a cell is at clock 0.
fn initial_bit(kind: CellKind) -> bool
    ensures { (i : ℕ) → kinds.initial kind i ≡ result }
{
    match kind {
        CellKind::Fdre(init) | CellKind::Fdse(init) | CellKind::Fdce(init) | CellKind::Fdpe(init) =>
            init,
        _ => false,
    }
}

/// The stored bits of the cells at clock 0, one cell's after the other's: `count` bits in all.
pub fn start_stored(alloc: Global, cells: &[Cell], count: usize) -> Result<Bits, NoMemory>
    requires few { length cells.now ≤ CELLS }
    requires allowed { (c : ℕ) (cell : _) → slice_get cells.now c ≡ Some cell → kinds.IsAllowed cell.kind }
    requires count { count ≡ base_of cells.now (length cells.now) }
    ensures { IfOk result (λ stored. IsStartTo cells.now (length cells.now) stored) }
{
    let mut stored = Bits::zeros(alloc, count)?;
    let mut base = 0usize;
    for cell in cells {
        if initial_bit(cell.kind) {
            stored.set(base, true);
        }
        base += cell.kind.content_size();
    }
    Ok(stored)
}
