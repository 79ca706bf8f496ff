ghost use Rattle.std.specs.Prelude.{◌≡◌, ℕ, ◌+◌, ◌<◌, ◌^◌, ◌++◌, [], map, filter, find, replicate, Some, None, if◌then◌else◌, nat_lt, IfOk, OnOk};
ghost use Rattle.std.specs.List.{flat_map};
ghost use Rattle.std.specs.Option.{option_copied, option_map};
ghost use Rattle.vlog_parse.specs.ReadTree.{connected_exprs};
ghost use Rattle.vlog_check.specs.Cells as table;
ghost use Rattle.vlog_check.specs.CellRows as rows;
ghost use Rattle.vlog_check.specs.Scope.{connected};
ghost use Rattle.elab_design.specs.Design.{Path, Bit};
ghost use Rattle.elab_design.specs.DesignCells as design;
ghost use Rattle.elab_design.specs.Raw.{pin as pin_at, out_nets, raw_cell};
ghost use Rattle.elab_unfold.specs.Places.{own_width, ArePlaces, AreSound, Fits};
ghost use Rattle.elab_unfold.specs.Shapes.{AreSmall};

use crate::cells::push_outs;
use crate::exprs::push_pins;
use crate::places::Places;
use flat_settle::RawCell;
use ila_base::{Items, Name, NoMemory};
use net_core::{CellKind, NetId, Pin};
use std::alloc::Global;
use vlog_check::{CellPin, Primitive, Size, pins};
use vlog_parse::{Conns, Dir, Expr, Inst, Value};

// The number of a value, where it is one.
fn number_in(value: Value) -> Option<u128>
    ensures { result ≡ table.number_in value }
{
    match value {
        Value::Whole(n) => Some(n as u128),
        Value::Sized(word) => Some(word.word().value),
        Value::Text => None,
    }
}

// The number that the first parameter of a name has, or else this one.
fn parameter(params: &[(Name, Value)], name: &[u8], missing: u128) -> u128
    ensures { result ≡ design.parameter params.now name.now missing }
{
    for param in params {
        if name == param.0.bytes() {
            return number_in(param.1).unwrap_or(missing);
        }
    }
    missing
}

fn own_init(cell: Primitive) -> u128
    ensures { result ≡ design.own_init cell }
{
    match cell {
        Primitive::Fdse | Primitive::Fdpe => 1,
        _ => 0,
    }
}

// The number if it is below two to the 64.
fn small_64(value: u128) -> u64
    ensures { result ≡ (if nat_lt value (2 ^ 64) then value else 0) }
{
    if value < 1 << 64 { value as u64 } else { 0 }
}

// The number if it is below two to the 16.
fn small_16(value: u128) -> u16
    ensures { result ≡ (if nat_lt value (2 ^ 16) then value else 0) }
{
    if value < 1 << 16 { value as u16 } else { 0 }
}

// The number if it is below two to the 8.
fn small_8(value: u128) -> u8
    ensures { result ≡ (if nat_lt value (2 ^ 8) then value else 0) }
{
    if value < 1 << 8 { value as u8 } else { 0 }
}

// The kind of a cell with this INIT, AW and DW.
fn kind_of(cell: Primitive, init: u64, bit: bool, aw: u8, dw: u16) -> CellKind
    ensures { result ≡ rows.kind_with cell init bit aw dw }
{
    match cell {
        Primitive::Lut1 => CellKind::Lut { n: 1, init },
        Primitive::Lut2 => CellKind::Lut { n: 2, init },
        Primitive::Lut3 => CellKind::Lut { n: 3, init },
        Primitive::Lut4 => CellKind::Lut { n: 4, init },
        Primitive::Lut5 => CellKind::Lut { n: 5, init },
        Primitive::Lut6 => CellKind::Lut { n: 6, init },
        Primitive::Inv => CellKind::Inv,
        Primitive::Ibuf => CellKind::Ibuf,
        Primitive::Obuf => CellKind::Obuf,
        Primitive::Bufg => CellKind::Bufg,
        Primitive::Gnd => CellKind::Gnd,
        Primitive::Vcc => CellKind::Vcc,
        Primitive::Muxf7 => CellKind::Muxf7,
        Primitive::Muxf8 => CellKind::Muxf8,
        Primitive::Carry4 => CellKind::Carry4,
        Primitive::Fdre => CellKind::Fdre(bit),
        Primitive::Fdse => CellKind::Fdse(bit),
        Primitive::Fdce => CellKind::Fdce(bit),
        Primitive::Fdpe => CellKind::Fdpe(bit),
        Primitive::Mem => CellKind::Mem { aw, dw },
    }
}

/// The kind of a cell with its parameters.
pub fn cell_kind(cell: Primitive, params: &[(Name, Value)]) -> CellKind
    requires { AreSmall cell params.now }
    ensures { result ≡ design.cell_kind cell params.now }
{
    let init = parameter(params, b"INIT", own_init(cell));
    let aw = small_8(parameter(params, b"AW", 0));
    let dw = small_16(parameter(params, b"DW", 0));
    kind_of(cell, small_64(init), init == 1, aw, dw)
}

// What a pin of a cell is connected to.
fn connected<'a>(conns: &'a Conns, name: &[u8]) -> Option<&'a Expr>
    ensures { option_copied result ≡ connected conns.now 0 name.now }
{
    match conns {
        Conns::ByPlace(given) => given.get(0),
        Conns::ByName(given) => {
            for conn in given.as_slice() {
                if conn.0.bytes() == name {
                    return conn.1.as_ref();
                }
            }
            None
        }
    }
}

fn is_clock(pin: &CellPin) -> bool
    ensures { result ≡ design.is_clock_pin (table.pin_row pin.now) }
{
    pin.way == Dir::Input && pin.name == b"C".as_slice()
}

// Adds what a pin of a cell is connected to.
fn push_pin(
    places: &Places,
    base: u32,
    inst: &Inst,
    pin: &CellPin,
    out: &mut Items<Pin>,
) -> Result<(), NoMemory>
    requires places { ArePlaces places.now }
    requires room { base + own_width places.now.holder.now < 2 ^ 32 }
    requires sound { AreSound places.now.holder.now (connected_exprs inst.now.conns) }
    ensures { OnOk result ((path : Path) (number : Bit → ℕ) → Fits places.now.holder.now path base number → out.new ≡ out.old ++ map (pin_at number) (design.pin_sources places.now.holder.now path inst.now (table.pin_row pin.now))) }
{
    match connected(&inst.conns, pin.name) {
        None => Ok(()),
        Some(e) => {
            push_pins(places, base, e, out)?;
            Ok(())
        }
    }
}

// Adds what a pin of a cell is connected to, if it is an input other than the clock.
fn push_input(
    places: &Places,
    base: u32,
    inst: &Inst,
    pin: &CellPin,
    out: &mut Items<Pin>,
) -> Result<(), NoMemory>
    requires places { ArePlaces places.now }
    requires room { base + own_width places.now.holder.now < 2 ^ 32 }
    requires sound { AreSound places.now.holder.now (connected_exprs inst.now.conns) }
    ensures { OnOk result ((path : Path) (number : Bit → ℕ) → Fits places.now.holder.now path base number → out.new ≡ out.old ++ map (pin_at number) (if rows.is_data_input (table.pin_row pin.now) then design.pin_sources places.now.holder.now path inst.now (table.pin_row pin.now) else [])) }
{
    if pin.way == Dir::Input && !is_clock(pin) {
        push_pin(places, base, inst, pin, out)?;
        Ok(())
    } else {
        Ok(())
    }
}

// What the inputs of a cell other than its clock are on.
fn read_ins(
    alloc: Global,
    places: &Places,
    base: u32,
    cell: Primitive,
    inst: &Inst,
) -> Result<Items<Pin>, NoMemory>
    requires places { ArePlaces places.now }
    requires room { base + own_width places.now.holder.now < 2 ^ 32 }
    requires sound { AreSound places.now.holder.now (connected_exprs inst.now.conns) }
    ensures { IfOk result (λ ins. (path : Path) (number : Bit → ℕ) → Fits places.now.holder.now path base number → ins ≡ map (pin_at number) (flat_map (design.pin_sources places.now.holder.now path inst.now) (filter rows.is_data_input (table.pins cell)))) }
{
    let mut ins = Items::new(alloc);
    for pin in pins(cell) {
        push_input(places, base, inst, pin, &mut ins)?;
    }
    Ok(ins)
}

// How many bits a pin has that no parameter makes wide.
fn open_count(size: Size) -> u8
    ensures { result ≡ rows.bits_sized 0 0 size }
{
    match size {
        Size::One => 1,
        Size::Four => 4,
        Size::Address => 0,
        Size::Data => 0,
    }
}

// Adds open pins, as many as an output has.
fn push_open(size: Size, out: &mut Items<Option<NetId>>) -> Result<(), NoMemory>
    ensures { OnOk result (out.new ≡ out.old ++ replicate (rows.bits_sized 0 0 size) None) }
{
    for _k in 0..open_count(size) {
        out.push(None)?;
    }
    Ok(())
}

// Adds the nets that a pin of a cell is on.
fn push_targets(
    alloc: Global,
    places: &Places,
    base: u32,
    inst: &Inst,
    pin: &CellPin,
    out: &mut Items<Option<NetId>>,
) -> Result<(), NoMemory>
    requires places { ArePlaces places.now }
    requires room { base + own_width places.now.holder.now < 2 ^ 32 }
    requires sound { AreSound places.now.holder.now (connected_exprs inst.now.conns) }
    ensures { OnOk result ((path : Path) (number : Bit → ℕ) → Fits places.now.holder.now path base number → out.new ≡ out.old ++ out_nets number (design.pin_targets places.now.holder.now path inst.now (table.pin_row pin.now))) }
{
    match connected(&inst.conns, pin.name) {
        None => {
            push_open(pin.size, out)?;
            Ok(())
        }
        Some(e) => {
            let mut found = Items::new(alloc);
            push_pins(places, base, e, &mut found)?;
            push_outs(found.as_slice(), out)?;
            Ok(())
        }
    }
}

// Adds the nets that a pin of a cell is on, if it is an output.
fn push_output(
    alloc: Global,
    places: &Places,
    base: u32,
    inst: &Inst,
    pin: &CellPin,
    out: &mut Items<Option<NetId>>,
) -> Result<(), NoMemory>
    requires places { ArePlaces places.now }
    requires room { base + own_width places.now.holder.now < 2 ^ 32 }
    requires sound { AreSound places.now.holder.now (connected_exprs inst.now.conns) }
    ensures { OnOk result ((path : Path) (number : Bit → ℕ) → Fits places.now.holder.now path base number → out.new ≡ out.old ++ out_nets number (if rows.is_data_output (table.pin_row pin.now) then design.pin_targets places.now.holder.now path inst.now (table.pin_row pin.now) else [])) }
{
    if pin.way == Dir::Output {
        push_targets(alloc, places, base, inst, pin, out)?;
        Ok(())
    } else {
        Ok(())
    }
}

// The nets that the outputs of a cell are on.
fn read_outs(
    alloc: Global,
    places: &Places,
    base: u32,
    cell: Primitive,
    inst: &Inst,
) -> Result<Items<Option<NetId>>, NoMemory>
    requires places { ArePlaces places.now }
    requires room { base + own_width places.now.holder.now < 2 ^ 32 }
    requires sound { AreSound places.now.holder.now (connected_exprs inst.now.conns) }
    ensures { IfOk result (λ outs. (path : Path) (number : Bit → ℕ) → Fits places.now.holder.now path base number → outs ≡ out_nets number (flat_map (design.pin_targets places.now.holder.now path inst.now) (filter rows.is_data_output (table.pins cell)))) }
{
    let mut outs = Items::new(alloc);
    for pin in pins(cell) {
        push_output(alloc, places, base, inst, pin, &mut outs)?;
    }
    Ok(outs)
}

// The clock pin of a cell.
fn clock_pin(cell: Primitive) -> Option<CellPin>
    ensures { option_map table.pin_row result ≡ find design.is_clock_pin (table.pins cell) }
{
    for pin in pins(cell) {
        if is_clock(pin) {
            return Some(*pin);
        }
    }
    None
}

// What the clock pin of a cell is on.
fn read_clock(
    alloc: Global,
    places: &Places,
    base: u32,
    cell: Primitive,
    inst: &Inst,
) -> Result<Option<Pin>, NoMemory>
    requires places { ArePlaces places.now }
    requires room { base + own_width places.now.holder.now < 2 ^ 32 }
    requires sound { AreSound places.now.holder.now (connected_exprs inst.now.conns) }
    ensures { IfOk result (λ clock. (path : Path) (number : Bit → ℕ) → Fits places.now.holder.now path base number → clock ≡ option_map (pin_at number) (design.leaf_cell places.now.holder.now path inst.now cell).clock) }
{
    match clock_pin(cell) {
        None => Ok(None),
        Some(pin) => {
            let mut found = Items::new(alloc);
            push_pin(places, base, inst, &pin, &mut found)?;
            Ok(found.get(0).copied())
        }
    }
}

/// The cell of an instance of a cell, with this name.
pub fn leaf_cell(
    alloc: Global,
    places: &Places,
    base: u32,
    cell: Primitive,
    inst: &Inst,
    name: Name,
) -> Result<RawCell, NoMemory>
    requires places { ArePlaces places.now }
    requires room { base + own_width places.now.holder.now < 2 ^ 32 }
    requires sound { AreSound places.now.holder.now (connected_exprs inst.now.conns) }
    requires small { AreSmall cell inst.now.params }
    ensures { IfOk result (λ made. (path : Path) (number : Bit → ℕ) → Fits places.now.holder.now path base number → made ≡ record (raw_cell number (design.leaf_cell places.now.holder.now path inst.now cell)) { name = Some name }) }
{
    let ins = read_ins(alloc, places, base, cell, inst)?;
    let outs = read_outs(alloc, places, base, cell, inst)?;
    let clock = read_clock(alloc, places, base, cell, inst)?;
    Ok(RawCell {
        link: false,
        kind: cell_kind(cell, inst.params.as_slice()),
        name: Some(name),
        ins,
        outs,
        clock,
    })
}
