ghost use Rattle.std.specs.Prelude.{◌≡◌, ℕ, List, ◌+◌, ◌<◌, ◌^◌, ◌++◌, ◌∷◌, true, map, IfOk, IfSome, OnOk};
ghost use Rattle.std.specs.Option.{option_map, option_copied};
ghost use Rattle.vlog_parse.specs.declared.tree.Conns.{Conns as ConnsOf};
ghost use Rattle.vlog_parse.specs.ReadTree.{connected_exprs};
ghost use Rattle.vlog_check.specs.Scope.{value_of, connected, is_sound};
ghost use Rattle.elab_design.specs.Design.{Path, Bit, sources};
ghost use Rattle.elab_design.specs.Order.{instance_links};
ghost use Rattle.elab_design.specs.Raw.{pin, raw_cell};
ghost use Rattle.elab_unfold.specs.Places.{own_width, ArePlaces, AreSound, Fits, net_end, inside_pins, border_cells};
ghost use Rattle.elab_unfold.specs.Ports.{IsGiven, given_cells};
ghost use Rattle.elab_unfold.specs.Shapes.{ArePorts};

use crate::cells::push_links;
use crate::exprs::{push_nets, push_pins};
use crate::places::{Net, Places};
use crate::shape::{PortNet, Shape};
use flat_settle::RawCell;
use ila_base::{Items, Name, NoMemory};
use net_core::Pin;
use std::alloc::Global;
use vlog_check::{Table, range_width};
use vlog_parse::{Conns, Expr, Inst};

/// What the ports of an instance are connected to.
#[derive(Drop)]
pub enum Given<'a> {
    ByName(Table<'a, Option<&'a Expr>>),
    ByPlace(&'a [Expr]),
}

// What the pins of these names are connected to.
fn read_named<'a>(
    alloc: Global,
    conns: &'a [(Name, Option<Expr>)],
) -> Result<Table<'a, Option<&'a Expr>>, NoMemory>
    ensures { IfOk result (λ given. (name : List ℕ) → option_map option_copied (value_of given name) ≡ value_of conns.now name) }
{
    let mut given = Table::new(alloc);
    for conn in conns {
        given.put(conn.0.bytes(), conn.1.as_ref())?;
    }
    Ok(given)
}

fn read_given<'a>(alloc: Global, conns: &'a Conns) -> Result<Given<'a>, NoMemory>
    ensures { IfOk result (IsGiven conns.now) }
{
    match conns {
        Conns::ByName(given) => {
            let named = read_named(alloc, given.as_slice())?;
            Ok(Given::ByName(named))
        }
        Conns::ByPlace(given) => Ok(Given::ByPlace(given.as_slice())),
    }
}

// What port `k`, which has this name, is connected to.
fn connected<'a>(given: &Given<'a>, k: usize, name: &[u8]) -> Option<&'a Expr>
    ensures { (conns : ConnsOf) → IsGiven conns given.now → option_copied result ≡ connected conns k name.now }
{
    match given {
        Given::ByName(table) => match table.get(name) {
            None => None,
            Some(e) => e,
        },
        Given::ByPlace(given) => given.get(k),
    }
}

// The bits of a port from the inside.
fn push_inside(next: u32, net: Option<Net>, out: &mut Items<Pin>) -> Result<(), NoMemory>
    requires { next + net_end net < 2 ^ 32 }
    ensures { OnOk result (out.new ≡ out.old ++ inside_pins next net) }
{
    match net {
        None => Ok(()),
        Some(net) => {
            push_nets(next + net.first, range_width(net.range) as u32, out)?;
            Ok(())
        }
    }
}

// Adds the links of a port that is connected to an expression.
fn push_port(
    alloc: Global,
    outer: &Places,
    base: u32,
    next: u32,
    port: &PortNet,
    e: &Expr,
    cells: &mut Items<RawCell>,
) -> Result<(), NoMemory>
    requires outer { ArePlaces outer.now }
    requires room { base + own_width outer.now.holder.now < 2 ^ 32 }
    requires inner_room { next + net_end port.now.net < 2 ^ 32 }
    requires sound { is_sound outer.now.holder.now e.now ≡ true }
    ensures { OnOk result ((path : Path) (number : Bit → ℕ) → Fits outer.now.holder.now path base number → cells.new ≡ cells.old ++ border_cells port.now.output (map (pin number) (sources outer.now.holder.now path e.now)) (inside_pins next port.now.net)) }
{
    let mut outside = Items::new(alloc);
    push_pins(outer, base, e, &mut outside)?;
    let mut inside = Items::new(alloc);
    push_inside(next, port.net, &mut inside)?;
    if port.output {
        push_links(alloc, inside.as_slice(), outside.as_slice(), cells)?;
        Ok(())
    } else {
        push_links(alloc, outside.as_slice(), inside.as_slice(), cells)?;
        Ok(())
    }
}

// Adds the links of a port of an instance.
fn push_given(
    alloc: Global,
    outer: &Places,
    base: u32,
    next: u32,
    port: &PortNet,
    e: Option<&Expr>,
    cells: &mut Items<RawCell>,
) -> Result<(), NoMemory>
    requires outer { ArePlaces outer.now }
    requires room { base + own_width outer.now.holder.now < 2 ^ 32 }
    requires inner_room { next + net_end port.now.net < 2 ^ 32 }
    requires sound { IfSome e (λ x. is_sound outer.now.holder.now x.now ≡ true) }
    ensures { OnOk result ((path : Path) (number : Bit → ℕ) → Fits outer.now.holder.now path base number → cells.new ≡ cells.old ++ given_cells number outer.now.holder.now path next port.now (option_copied e.entry)) }
{
    match e {
        None => Ok(()),
        Some(e) => {
            push_port(alloc, outer, base, next, port, e, cells)?;
            Ok(())
        }
    }
}

// Adds the links of the ports of an instance, which are connected so.
fn push_all(
    alloc: Global,
    outer: &Places,
    base: u32,
    inner: &Shape,
    next: u32,
    inst: &Inst,
    given: &Given,
    cells: &mut Items<RawCell>,
) -> Result<(), NoMemory>
    requires outer { ArePlaces outer.now }
    requires ports { ArePorts inner.now }
    requires room { base + own_width outer.now.holder.now < 2 ^ 32 }
    requires inner_room { next + own_width inner.now.places.holder.now < 2 ^ 32 }
    requires sound { AreSound outer.now.holder.now (connected_exprs inst.now.conns) }
    requires given { IsGiven inst.now.conns given.now }
    ensures { OnOk result ((path : Path) (number : Bit → ℕ) → Fits outer.now.holder.now path base number → Fits inner.now.places.holder.now (inst.now.name ∷ path) next number → cells.new ≡ cells.old ++ map (raw_cell number) (instance_links outer.now.holder.now path inst.now inner.now.places.holder.now)) }
{
    for (k, port) in inner.ports.as_slice().iter().enumerate() {
        push_given(
            alloc,
            outer,
            base,
            next,
            port,
            connected(given, k, port.name),
            cells,
        )?;
    }
    Ok(())
}

/// Adds the links of an instance of a module, whose net bits begin with the number `next`.
pub fn push_ports(
    alloc: Global,
    outer: &Places,
    base: u32,
    inner: &Shape,
    next: u32,
    inst: &Inst,
    cells: &mut Items<RawCell>,
) -> Result<(), NoMemory>
    requires outer { ArePlaces outer.now }
    requires ports { ArePorts inner.now }
    requires room { base + own_width outer.now.holder.now < 2 ^ 32 }
    requires inner_room { next + own_width inner.now.places.holder.now < 2 ^ 32 }
    requires sound { AreSound outer.now.holder.now (connected_exprs inst.now.conns) }
    ensures { OnOk result ((path : Path) (number : Bit → ℕ) → Fits outer.now.holder.now path base number → Fits inner.now.places.holder.now (inst.now.name ∷ path) next number → cells.new ≡ cells.old ++ map (raw_cell number) (instance_links outer.now.holder.now path inst.now inner.now.places.holder.now)) }
{
    let given = read_given(alloc, &inst.conns)?;
    push_all(alloc, outer, base, inner, next, inst, &given, cells)?;
    Ok(())
}
