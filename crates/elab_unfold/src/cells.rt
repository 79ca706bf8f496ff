ghost use Rattle.std.specs.Prelude.{◌≡◌, ℕ, ◌+◌, ◌<◌, ◌^◌, ◌++◌, true, map, IfOk, OnOk};
ghost use Rattle.vlog_check.specs.Scope.{is_sound};
ghost use Rattle.elab_design.specs.Design.{Path, Bit, sources};
ghost use Rattle.elab_design.specs.Order.{links};
ghost use Rattle.elab_design.specs.Raw.{raw_cell};
ghost use Rattle.elab_unfold.specs.Places.{own_width, ArePlaces, Fits, pin_net, link_cell, link_where, link_cells};

use crate::exprs::push_pins;
use crate::places::Places;
use flat_settle::RawCell;
use ila_base::{Items, NoMemory};
use net_core::{CellKind, GateCode, NetId, Pin};
use std::alloc::Global;
use vlog_parse::Expr;

// The net that a pin is on: none where it is on a constant.
fn net_of(pin: Pin) -> Option<NetId>
    ensures { result ≡ pin_net pin }
{
    match pin {
        Pin::Net(net) => Some(net),
        Pin::Zero | Pin::One => None,
    }
}

/// Adds the nets that output pins are on.
pub fn push_outs(pins: &[Pin], out: &mut Items<Option<NetId>>) -> Result<(), NoMemory>
    ensures { OnOk result (out.new ≡ out.old ++ map pin_net pins.now) }
{
    for pin in pins {
        out.push(net_of(*pin))?;
    }
    Ok(())
}

// The link from a pin to a net.
fn link(alloc: Global, from: Pin, to: NetId) -> Result<RawCell, NoMemory>
    ensures { IfOk result (λ cell. cell ≡ link_cell from to) }
{
    let mut ins = Items::new(alloc);
    ins.push(from)?;
    let mut outs = Items::new(alloc);
    outs.push(Some(to))?;
    Ok(RawCell {
        link: true,
        kind: CellKind::Gate(GateCode::Buf),
        name: None,
        ins,
        outs,
        clock: None,
    })
}

// Adds the link from a pin to another, if that is on a net.
fn push_link(alloc: Global, from: Pin, to: Pin, cells: &mut Items<RawCell>) -> Result<(), NoMemory>
    ensures { OnOk result (cells.new ≡ cells.old ++ link_where from (pin_net to)) }
{
    match net_of(to) {
        None => Ok(()),
        Some(net) => {
            let cell = link(alloc, from, net)?;
            cells.push(cell)?;
            Ok(())
        }
    }
}

/// Adds a link from each pin to the net in its place.
pub fn push_links(
    alloc: Global,
    from: &[Pin],
    to: &[Pin],
    cells: &mut Items<RawCell>,
) -> Result<(), NoMemory>
    ensures { OnOk result (cells.new ≡ cells.old ++ link_cells from.now to.now) }
{
    for k in 0..from.len().min(to.len()) {
        push_link(alloc, from[k], to[k], cells)?;
    }
    Ok(())
}

/// Adds the links of an assign.
pub fn push_assign(
    alloc: Global,
    places: &Places,
    base: u32,
    target: &Expr,
    value: &Expr,
    cells: &mut Items<RawCell>,
) -> Result<(), NoMemory>
    requires places { ArePlaces places.now }
    requires room { base + own_width places.now.holder.now < 2 ^ 32 }
    requires target { is_sound places.now.holder.now target.now ≡ true }
    requires value { is_sound places.now.holder.now value.now ≡ true }
    ensures { OnOk result ((path : Path) (number : Bit → ℕ) → Fits places.now.holder.now path base number → cells.new ≡ cells.old ++ map (raw_cell number) (links path (sources places.now.holder.now path value.now) (sources places.now.holder.now path target.now))) }
{
    let mut to = Items::new(alloc);
    push_pins(places, base, target, &mut to)?;
    let mut from = Items::new(alloc);
    push_pins(places, base, value, &mut from)?;
    push_links(alloc, from.as_slice(), to.as_slice(), cells)?;
    Ok(())
}
