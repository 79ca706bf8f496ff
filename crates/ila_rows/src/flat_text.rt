//! A flat netlist as the rows write it: a line for each group, cell and port, and one for the clock.

use crate::design::flat_of;
use crate::fault::Fault;
use crate::field::Field;
use crate::line::Line;
use crate::outcome::Outcome;
use crate::refusal_text::placed_text;
use crate::table::Entry;
use net_core::{Cell, Flat, Group, NetId, Pin, Port};
use std::alloc::Global;

/// Gives the flat netlist of a row's text, or its refusal, and the numbers of the nets that the row
/// asks for by their names, `none` where there is no such net.
pub fn flat(alloc: Global, entry: &Entry<'_>, outcome: &mut Outcome) -> Result<(), Fault> {
    let text = entry.bytes("text");
    match flat_of(
        alloc,
        text,
        entry.text("top", "m")?,
        entry.text("clock", "clk")?,
    ) {
        Ok(flat) => {
            outcome.push("flat", flat_text(alloc, &flat)?)?;
            give_nets(alloc, &flat, entry.fields, outcome)?;
            give_nets(alloc, &flat, entry.common, outcome)
        }
        Err(stop) => outcome.push("flat", placed_text(alloc, stop)?),
    }
}

fn give_nets(
    alloc: Global,
    flat: &Flat,
    fields: &[Field],
    outcome: &mut Outcome,
) -> Result<(), Fault> {
    for field in fields {
        if let Some(name) = field.name_behind("net") {
            outcome.push(field.key.as_str(), net_text(alloc, flat.find(name))?)?;
        }
    }
    Ok(())
}

fn net_text(alloc: Global, net: Option<NetId>) -> Result<Vec<u8>, Fault> {
    let mut line = Line::new(alloc);
    match net {
        Some(net) => line.number(u64::from(net.0))?,
        None => line.bytes(b"none")?,
    }
    Ok(line.into_bytes())
}

fn flat_text(alloc: Global, flat: &Flat) -> Result<Vec<u8>, Fault> {
    let mut line = Line::new(alloc);
    write_groups(&mut line, flat.groups())?;
    write_cells(&mut line, flat.cells())?;
    write_ports(&mut line, flat.ports())?;
    line.bytes(b"clock ")?;
    line.number(u64::from(flat.clock().0))?;
    line.bytes(b"\n")?;
    Ok(line.into_bytes())
}

fn write_groups(line: &mut Line, groups: &[Group]) -> Result<(), Fault> {
    for group in groups {
        write_group(line, group)?;
    }
    Ok(())
}

fn write_cells(line: &mut Line, cells: &[Cell]) -> Result<(), Fault> {
    for cell in cells {
        write_cell(line, cell)?;
    }
    Ok(())
}

fn write_ports(line: &mut Line, ports: &[Port]) -> Result<(), Fault> {
    for port in ports {
        line.bytes(if port.output {
            b"output ".as_slice()
        } else {
            b"input ".as_slice()
        })?;
        line.number(u64::from(port.group))?;
        line.bytes(b"\n")?;
    }
    Ok(())
}

fn write_group(line: &mut Line, group: &Group) -> Result<(), Fault> {
    line.bytes(group.name.bytes())?;
    if let Some((left, right)) = group.range {
        line.span(left, right)?;
    }
    for bit in group.bits.as_slice() {
        write_net(line, *bit)?;
    }
    line.bytes(b"\n")
}

fn write_net(line: &mut Line, net: NetId) -> Result<(), Fault> {
    line.bytes(b" ")?;
    line.number(u64::from(net.0))
}

fn write_pin(line: &mut Line, pin: Pin) -> Result<(), Fault> {
    match pin {
        Pin::Net(net) => write_net(line, net),
        Pin::Zero => line.bytes(b" low"),
        Pin::One => line.bytes(b" high"),
    }
}

fn write_pins(line: &mut Line, pins: &[Pin]) -> Result<(), Fault> {
    for pin in pins {
        write_pin(line, *pin)?;
    }
    Ok(())
}

fn write_outs(line: &mut Line, outs: &[Option<NetId>]) -> Result<(), Fault> {
    for out in outs {
        match out {
            None => line.bytes(b" open")?,
            Some(net) => write_net(line, *net)?,
        }
    }
    Ok(())
}

fn write_cell(line: &mut Line, cell: &Cell) -> Result<(), Fault> {
    let kind = cell.kind;
    let text = format!(in line.alloc(); "{kind:?}")?;
    line.bytes(text.as_bytes())?;
    if let Some(name) = &cell.name {
        line.word(name)?;
    }
    line.bytes(b":")?;
    write_pins(line, cell.ins.as_slice())?;
    line.bytes(b" >")?;
    write_outs(line, cell.outs.as_slice())?;
    if let Some(clock) = cell.clock {
        line.bytes(b" at")?;
        write_net(line, clock)?;
    }
    line.bytes(b"\n")
}
