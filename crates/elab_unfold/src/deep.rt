ghost use Rattle.std.specs.Prelude.{◌≡◌, ℕ, ◌+◌, ◌<◌, ◌^◌, ◌++◌, ◌∷◌, [], map, slice_get, Some, OnOk, IfOk};
ghost use Rattle.std.specs.Option.{option_map};
ghost use Rattle.vlog_parse.specs.declared.tree.Module.{Module as ModuleOf};
ghost use Rattle.vlog_parse.specs.ReadTree.{connected_exprs};
ghost use Rattle.elab_count.specs.Counting.{IsPart};
ghost use Rattle.elab_design.specs.Design.{Path, Bit};
ghost use Rattle.elab_design.specs.DesignCells as design;
ghost use Rattle.elab_design.specs.Order.{own_cells, instance_links};
ghost use Rattle.elab_design.specs.Raw.{raw_cell};
ghost use Rattle.elab_unfold.specs.Places.{own_width, ArePlaces, AreSound, Fits, prefix_of};
ghost use Rattle.elab_unfold.specs.Shapes.{AreSmall, own_item, IsOwn, ArePorts, IsPlan, IsRight, shape_size, design_of};
ghost use Rattle.elab_unfold.specs.Adding.{Adds, AddsCells};

use crate::cells::push_assign;
use crate::gates::gate_cell;
use crate::groups::push_groups;
use crate::leaves::leaf_cell;
use crate::places::Places;
use crate::ports::push_ports;
use crate::prefix::{enter, name_behind};
use crate::shape::{Own, Plan, Shape, Step};
use crate::state::State;
use ila_base::{Name, NoMemory};
use std::alloc::Global;
use vlog_check::Primitive;
use vlog_parse::{Gate, Inst};

// The flat name of what has a name.
fn flat_name(
    alloc: Global,
    name: &Option<Name>,
    prefix: &mut Vec<u8>,
) -> Result<Option<Name>, NoMemory>
    ensures stays { OnOk result (prefix.new.items ≡ prefix.old.items) }
    ensures named { IfOk result (λ whole. whole ≡ option_map (λ n. prefix.old.items ++ n) name.now) }
{
    match name {
        None => Ok(None),
        Some(name) => {
            let whole = name_behind(alloc, prefix, name.bytes())?;
            Ok(Some(whole))
        }
    }
}

fn push_gate(
    alloc: Global,
    places: &Places,
    base: u32,
    gate: &Gate,
    state: &mut State,
) -> Result<(), NoMemory>
    requires places { ArePlaces places.now }
    requires room { base + own_width places.now.holder.now < 2 ^ 32 }
    requires sound { AreSound places.now.holder.now gate.now.args }
    ensures { OnOk result (AddsCells places.now.holder.now base (λ path. design.gate_cell places.now.holder.now path gate.now ∷ []) state.old state.new) }
{
    let name = flat_name(alloc, &gate.name, &mut state.prefix)?;
    let cell = gate_cell(alloc, places, base, gate, name)?;
    state.cells.push(cell)?;
    Ok(())
}

fn push_leaf(
    alloc: Global,
    places: &Places,
    base: u32,
    cell: Primitive,
    inst: &Inst,
    state: &mut State,
) -> Result<(), NoMemory>
    requires places { ArePlaces places.now }
    requires room { base + own_width places.now.holder.now < 2 ^ 32 }
    requires sound { AreSound places.now.holder.now (connected_exprs inst.now.conns) }
    requires small { AreSmall cell inst.now.params }
    ensures { OnOk result (AddsCells places.now.holder.now base (λ path. design.leaf_cell places.now.holder.now path inst.now cell ∷ []) state.old state.new) }
{
    let name = name_behind(alloc, &mut state.prefix, inst.name.bytes())?;
    let cell = leaf_cell(alloc, places, base, cell, inst, name)?;
    state.cells.push(cell)?;
    Ok(())
}

// Adds the cells of an item of a module that has the number `base` for the first bit of its nets.
fn push_own(
    alloc: Global,
    plan: &Plan,
    places: &Places,
    base: u32,
    own: Own,
    state: &mut State,
) -> Result<(), NoMemory>
    requires places { ArePlaces places.now }
    requires room { base + own_width places.now.holder.now < 2 ^ 32 }
    requires own { IsOwn plan.now.tree.now places.now.holder.now own }
    ensures { OnOk result (AddsCells places.now.holder.now base (λ path. own_cells (design_of plan.now) places.now.holder.now path (own_item own.entry)) state.old state.new) }
{
    match own {
        Own::Assign(target, value) => {
            push_assign(alloc, places, base, target, value, &mut state.cells)?;
            Ok(())
        }
        Own::Gate(gate) => {
            push_gate(alloc, places, base, gate, state)?;
            Ok(())
        }
        Own::Leaf(cell, inst) => {
            push_leaf(alloc, places, base, cell, inst, state)?;
            Ok(())
        }
    }
}

// Adds the links of an instance of a module, and goes to the instance.
fn push_border(
    alloc: Global,
    places: &Places,
    base: u32,
    inner: &Shape,
    inst: &Inst,
    state: &mut State,
) -> Result<(), NoMemory>
    requires places { ArePlaces places.now }
    requires ports { ArePorts inner.now }
    requires room { base + own_width places.now.holder.now < 2 ^ 32 }
    requires inner_room { state.old.nets + own_width inner.now.places.holder.now < 2 ^ 32 }
    requires sound { AreSound places.now.holder.now (connected_exprs inst.now.conns) }
    ensures nets { OnOk result (state.new.nets ≡ state.old.nets) }
    ensures groups { OnOk result (state.new.groups ≡ state.old.groups) }
    ensures prefix { OnOk result (state.new.prefix.items ≡ state.old.prefix.items ++ (inst.now.name ++ 47 ∷ [])) }
    ensures cells { OnOk result ((path : Path) (number : Bit → ℕ) → Fits places.now.holder.now path base number → Fits inner.now.places.holder.now (inst.now.name ∷ path) state.old.nets number → state.new.cells ≡ state.old.cells ++ map (raw_cell number) (instance_links places.now.holder.now path inst.now inner.now.places.holder.now)) }
{
    let next = state.nets;
    push_ports(alloc, places, base, inner, next, inst, &mut state.cells)?;
    enter(&mut state.prefix, inst.name.bytes())?;
    Ok(())
}

/// What is kept of a module with this number, which is the top or below it.
pub fn shape_at<'p, 'a>(plan: &'p Plan<'a>, number: usize) -> &'p Shape<'a>
    requires plan { IsPlan plan.now }
    requires part { IsPart plan.now.tree.now plan.now.top number }
    ensures at { slice_get plan.now.shapes.items number ≡ Some result.now }
    ensures right { IsRight plan.now number result.now }
{
    &plan.shapes[number]
}

/// Adds a module at a path: its nets, and then its items in order. An instance of a module is its links,
/// and then that module. It recurses as deep as instances are in one another.
pub fn push_module(
    alloc: Global,
    plan: &Plan,
    number: usize,
    state: &mut State,
) -> Result<(), NoMemory>
    requires plan { IsPlan plan.now }
    requires part { IsPart plan.now.tree.now plan.now.top number }
    requires room { state.old.nets + shape_size plan.now number < 2 ^ 32 }
    ensures prefix { OnOk result (state.new.prefix.items ≡ state.old.prefix.items) }
    ensures nets { OnOk result (state.new.nets ≡ state.old.nets + shape_size plan.now number) }
    ensures adds { OnOk result ((m : ModuleOf) (path : Path) → slice_get plan.now.tree.now.modules number ≡ Some m → state.old.prefix.items ≡ prefix_of path → Adds (design_of plan.now) m path state.old state.new) }
{
    let shape = shape_at(plan, number);
    let base = state.nets;
    push_groups(alloc, shape.order, state)?;
    for step in shape.steps.as_slice() {
        match step {
            Step::Own(own) => {
                push_own(alloc, plan, &shape.places, base, *own, state)?;
            }
            Step::Inside(inside, inst) => {
                let end = state.prefix.len();
                let inner = shape_at(plan, *inside);
                push_border(alloc, &shape.places, base, inner, inst, state)?;
                push_module(alloc, plan, *inside, state)?;
                state.prefix.truncate(end);
            }
        }
    }
    Ok(())
}
