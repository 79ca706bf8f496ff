//! The numbers of net bits that ports, pins and cells name, put behind a list.
ghost use Rattle.std.specs.Prelude.{◌≡◌, ◌^◌, ◌<◌, Some, OnOk, IfOk, not, ◌||◌};
ghost use Rattle.net_core.specs.Netlist.{net_count, port_nets};
ghost use Rattle.net_graph.specs.Lists.{IsIn};
ghost use Rattle.net_core.specs.Tables.{IsAmongNets};
ghost use Rattle.flat_settle.specs.Tables.{Appends, IsSomewhere, PinHas, PortHas, ReadHas, ClockHas, counts};

use ila_base::{Items, NoMemory};
use net_core::{Cell, CellKind, Group, NetId, Pin, Port};

// How many net bits the groups have.
pub fn count_nets(groups: &[Group]) -> usize
    requires { net_count groups.now < 2 ^ 32 }
    ensures { result ≡ net_count groups.now }
{
    groups.iter().map(|group| group.bits.len()).sum()
}

// Puts the net of a pin behind a list.
fn push_pin(list: &mut Items<u32>, pin: Pin) -> Result<(), NoMemory>
    ensures { OnOk result (Appends list.old list.new (PinHas 0 pin)) }
{
    match pin {
        Pin::Net(net) => list.push(net.0),
        Pin::Zero | Pin::One => Ok(()),
    }
}

// Puts the nets of pins behind a list.
fn push_pins(list: &mut Items<u32>, ins: &[Pin]) -> Result<(), NoMemory>
    ensures { OnOk result (Appends list.old list.new (IsSomewhere PinHas ins.now)) }
{
    for pin in ins {
        push_pin(list, *pin)?;
    }
    Ok(())
}

// Puts the numbers of the nets behind a list.
fn push_bits(list: &mut Items<u32>, bits: &[NetId]) -> Result<(), NoMemory>
    ensures { OnOk result (Appends list.old list.new (IsAmongNets bits.now)) }
{
    for net in bits {
        list.push(net.0)?;
    }
    Ok(())
}

// Puts the bits of a port behind a list, where it is on this side.
fn push_port(
    list: &mut Items<u32>,
    groups: &Items<Group>,
    port: Port,
    output: bool,
) -> Result<(), NoMemory>
    ensures { OnOk result (Appends list.old list.new (PortHas groups.now output 0 port)) }
{
    if port.output != output {
        return Ok(());
    }
    match groups.get(port.group as usize) {
        Some(group) => push_bits(list, group.bits.as_slice()),
        None => Ok(()),
    }
}

/// Puts the bits of the inputs behind a list, or those of the outputs.
pub fn push_ports(
    list: &mut Items<u32>,
    groups: &Items<Group>,
    ports: &[Port],
    output: bool,
) -> Result<(), NoMemory>
    ensures { OnOk result (Appends list.old list.new (IsSomewhere (PortHas groups.now output) ports.now)) }
{
    for port in ports {
        push_port(list, groups, *port, output)?;
    }
    Ok(())
}

// Whether the reads of a cell of this kind count.
fn is_counted(kind: CellKind, all: bool) -> bool
    ensures { result ≡ counts all kind }
{
    all || !kind.is_clock_buffer()
}

// Puts the nets that a cell reads behind a list, where its reads count.
fn push_cell_reads(list: &mut Items<u32>, cell: &Cell, all: bool) -> Result<(), NoMemory>
    ensures { OnOk result (Appends list.old list.new (ReadHas all 0 cell.now)) }
{
    if is_counted(cell.kind, all) {
        push_pins(list, cell.ins.as_slice())
    } else {
        Ok(())
    }
}

/// Puts the nets that the cells read behind a list: of all cells, or of those that don't lead the clock
/// on.
pub fn push_reads(list: &mut Items<u32>, cells: &[Cell], all: bool) -> Result<(), NoMemory>
    ensures { OnOk result (Appends list.old list.new (IsSomewhere (ReadHas all) cells.now)) }
{
    for cell in cells {
        push_cell_reads(list, cell, all)?;
    }
    Ok(())
}

// Puts the net on the clock pin behind a list.
fn push_clock(list: &mut Items<u32>, cell: &Cell) -> Result<(), NoMemory>
    ensures { OnOk result (Appends list.old list.new (ClockHas 0 cell.now)) }
{
    match cell.clock {
        Some(net) => list.push(net.0),
        None => Ok(()),
    }
}

/// Puts the nets on clock pins behind a list.
pub fn push_clocks(list: &mut Items<u32>, cells: &[Cell]) -> Result<(), NoMemory>
    ensures { OnOk result (Appends list.old list.new (IsSomewhere ClockHas cells.now)) }
{
    for cell in cells {
        push_clock(list, cell)?;
    }
    Ok(())
}
