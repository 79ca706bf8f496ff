ghost use Rattle.std.specs.Prelude.{◌≡◌, ℕ, map, length, codes};
ghost use Rattle.vlog_parse.specs.declared.tree.Module.{Module as ModuleOf};
ghost use Rattle.std.specs.Option.{unwrap_or};
ghost use Rattle.vlog_check.specs.Cells.{number_in};
ghost use Rattle.vlog_check.specs.CellRows.{bits_sized};
ghost use Rattle.elab_design.specs.DesignCells.{parameter};
ghost use Rattle.elab_design.specs.Limits.{carried};
ghost use Rattle.elab_count.specs.Counting as counting;
ghost use Rattle.elab_scope.specs.Modules.{AreNumbered, part_of};
ghost use Rattle.elab_scope.specs.Nets.{AreNets, named_nets};
ghost use Rattle.elab_count.specs.Amounts.{saturated, AreCapped};

use crate::amounts::Count;
use crate::exprs::{width_of, width_of_conns};
use elab_scope::{Modules, Nets, Part, part_of};
use ila_base::Name;
use ila_base::limits::GREATEST_COUNT;
use vlog_check::{Primitive, Size, pins, range_width};
use vlog_parse::{Gate, Inst, Item, Module, Range, Value};

// The links of so many bits: each has two pins.
fn count_links(bits: u64) -> Count
    ensures { (n : ℕ) → bits ≡ saturated n → result ≡ counting.capped (counting.links_count n) }
{
    Count::of_cells(bits, bits.saturating_mul(2))
}

fn count_gate(g: &Gate) -> Count
    ensures { result ≡ counting.capped (counting.gate_count g.now) }
{
    let count = Count::of_cells(1, g.args.len() as u64);
    match &g.name {
        Some(name) => count.named(name.bytes().len()),
        None => count,
    }
}

// The number of a value up to the greatest count, or 0.
fn number_in(value: Value) -> u64
    ensures { result ≡ carried (unwrap_or (number_in value) 0) }
{
    match value {
        Value::Whole(n) => n as u64,
        Value::Sized(word) => word.word().value.min(GREATEST_COUNT as u128) as u64,
        Value::Text => 0,
    }
}

// The number that the first parameter of a name has, or 0.
fn amount(params: &[(Name, Value)], name: &[u8]) -> u64
    ensures { result ≡ carried (parameter params.now name.now 0) }
{
    for param in params {
        if name == param.0.bytes() {
            return number_in(param.1);
        }
    }
    0
}

fn bits_of(inst: &Inst, size: Size) -> u64
    ensures { carried result ≡ carried (bits_sized (parameter inst.now.params (codes "AW") 0) (parameter inst.now.params (codes "DW") 0) size) }
{
    match size {
        Size::One => 1,
        Size::Four => 4,
        Size::Address => amount(inst.params.as_slice(), b"AW"),
        Size::Data => amount(inst.params.as_slice(), b"DW"),
    }
}

// How many bits the pins of a cell have.
fn leaf_pins(cell: Primitive, inst: &Inst) -> u64
    ensures { carried result ≡ carried (counting.leaf_pins cell inst.now) }
{
    let mut bits: u64 = 0;
    for pin in pins(cell) {
        bits = bits.saturating_add(bits_of(inst, pin.size));
    }
    bits
}

fn count_leaf(cell: Primitive, inst: &Inst) -> Count
    ensures { result ≡ counting.capped (counting.leaf_count cell inst.now) }
{
    Count::of_cells(1, leaf_pins(cell, inst)).named(inst.name.bytes().len())
}

// The count of a module that was counted before.
fn counted(counts: &[Option<Count>], number: usize) -> Count
    ensures { result ≡ counting.count_at counts.now number }
{
    match counts.get(number) {
        Some(Some(count)) => *count,
        _ => Count::ZERO,
    }
}

// The links of an instance of a module, with what that module counts.
fn count_inner(nets: &Nets, counts: &[Option<Count>], inst: &Inst, number: usize) -> Count
    requires capped { AreCapped counts.now }
    ensures { (m : ModuleOf) → AreNets m nets.now → result ≡ counting.capped (counting.together (counting.links_count (counting.conns_width m inst.now.conns)) (counting.behind (length inst.now.name) (counting.count_at counts.now number))) }
{
    let links = count_links(width_of_conns(nets, &inst.conns));
    links.with(counted(counts, number).behind(inst.name.bytes().len()))
}

fn count_inst(nets: &Nets, modules: &Modules, counts: &[Option<Count>], inst: &Inst) -> Count
    requires numbered { AreNumbered modules.now }
    requires capped { AreCapped counts.now }
    ensures { (m : ModuleOf) → AreNets m nets.now → result ≡ counting.capped (counting.part_count counts.now m inst.now (part_of modules.now.tree.now inst.now)) }
{
    match part_of(modules, inst) {
        None => Count::ZERO,
        Some(Part::Cell(cell)) => count_leaf(cell, inst),
        Some(Part::Module(number)) => count_inner(nets, counts, inst, number),
    }
}

fn count_item(nets: &Nets, modules: &Modules, counts: &[Option<Count>], item: &Item) -> Count
    requires numbered { AreNumbered modules.now }
    requires capped { AreCapped counts.now }
    ensures { (m : ModuleOf) → AreNets m nets.now → result ≡ counting.capped (counting.item_count modules.now.tree.now counts.now m item.now) }
{
    match item {
        Item::Net(_) => Count::ZERO,
        Item::Assign(target, _) => count_links(width_of(nets, target)),
        Item::Gate(g) => count_gate(g),
        Item::Inst(inst) => count_inst(nets, modules, counts, inst),
    }
}

fn count_net(net: &(&[u8], Option<Range>)) -> Count
    ensures { result ≡ counting.capped (counting.net_count (net.now.0.now, net.now.1)) }
{
    Count::of_net(range_width(net.1), net.0.len())
}

fn count_nets(nets: &Nets) -> Count
    ensures { (m : ModuleOf) → AreNets m nets.now → result ≡ counting.capped (counting.all_together (map counting.net_count (named_nets m))) }
{
    let mut count = Count::ZERO;
    for net in nets.order.as_slice() {
        count = count.with(count_net(net));
    }
    count
}

/// What a module with these nets has, where the modules of its instances were counted before.
pub fn count_module(modules: &Modules, counts: &[Option<Count>], m: &Module, nets: &Nets) -> Count
    requires numbered { AreNumbered modules.now }
    requires capped { AreCapped counts.now }
    requires nets { AreNets m.now nets.now }
    ensures { result ≡ counting.capped (counting.module_count modules.now.tree.now counts.now m.now) }
{
    let mut count = count_nets(nets);
    for item in m.items.as_slice() {
        count = count.with(count_item(nets, modules, counts, item));
    }
    count
}
