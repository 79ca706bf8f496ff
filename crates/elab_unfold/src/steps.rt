ghost use Rattle.std.specs.Prelude.{◌≡◌, List, [], ◌∷◌, ◌++◌, false, IfOk, OnOk, MatchOption};
ghost use Rattle.elab_count.specs.Counting.{count_at};
ghost use Rattle.elab_scope.specs.Modules.{AreNumbered};
ghost use Rattle.vlog_parse.specs.declared.tree.Item.{Item as ItemOf};
ghost use Rattle.vlog_parse.specs.declared.tree.Item.TheVariants as items;
ghost use Rattle.elab_unfold.specs.Steps.{has_some, is_live, IsStepOf, AreSteps};

use crate::shape::{Own, Step};
use elab_count::Count;
use elab_scope::{Modules, Part, part_of};
use ila_base::NoMemory;
use std::alloc::Global;
use vlog_parse::{Inst, Item, Module};

// Whether an instance of the module with this number unfolds to a net or a cell.
fn has_some(counts: &[Option<Count>], number: usize) -> bool
    ensures { result ≡ has_some (count_at counts.now number) }
{
    match counts.get(number) {
        Some(Some(count)) => 0 < count.nets || 0 < count.cells,
        _ => false,
    }
}

fn step_of_inst<'a>(modules: &Modules, counts: &[Option<Count>], inst: &'a Inst) -> Option<Step<'a>>
    requires { AreNumbered modules.now }
    ensures { MatchOption result (is_live modules.now.tree.now counts.now (items.Inst inst.now) ≡ false) (IsStepOf modules.now.tree.now counts.now (items.Inst inst.now)) }
{
    match part_of(modules, inst) {
        None => None,
        Some(Part::Cell(cell)) => Some(Step::Own(Own::Leaf(cell, inst))),
        Some(Part::Module(number)) => {
            if has_some(counts, number) {
                Some(Step::Inside(number, inst))
            } else {
                None
            }
        }
    }
}

fn step_of<'a>(modules: &Modules, counts: &[Option<Count>], item: &'a Item) -> Option<Step<'a>>
    requires { AreNumbered modules.now }
    ensures { MatchOption result (is_live modules.now.tree.now counts.now item.now ≡ false) (IsStepOf modules.now.tree.now counts.now item.now) }
{
    match item {
        Item::Net(_) => None,
        Item::Assign(target, value) => Some(Step::Own(Own::Assign(target, value))),
        Item::Gate(gate) => Some(Step::Own(Own::Gate(gate))),
        Item::Inst(inst) => step_of_inst(modules, counts, inst),
    }
}

// Adds the step of an item behind those of others, if it unfolds to something.
fn add_step<'a>(
    modules: &Modules,
    counts: &[Option<Count>],
    item: &'a Item,
    steps: &mut Vec<Step<'a>>,
) -> Result<(), NoMemory>
    requires { AreNumbered modules.now }
    ensures { OnOk result ((given : List ItemOf) → AreSteps modules.now.tree.now counts.now given steps.old.items → AreSteps modules.now.tree.now counts.now (given ++ item.now ∷ []) steps.new.items) }
{
    match step_of(modules, counts, item) {
        None => Ok(()),
        Some(step) => {
            steps.push(step)?;
            Ok(())
        }
    }
}

/// The items of a module that unfold to something, in order.
pub fn read_steps<'a>(
    alloc: Global,
    modules: &Modules,
    counts: &[Option<Count>],
    m: &'a Module,
) -> Result<Vec<Step<'a>>, NoMemory>
    requires { AreNumbered modules.now }
    ensures { IfOk result (λ steps. AreSteps modules.now.tree.now counts.now m.now.items steps.items) }
{
    let mut steps = Vec::new(alloc);
    for item in m.items.as_slice() {
        add_step(modules, counts, item, &mut steps)?;
    }
    Ok(steps)
}
