ghost use Rattle.std.specs.Prelude.{◌<◌, ◌^◌, IfOk};
ghost use Rattle.elab_unfold.specs.Shapes.{IsPlan, shape_size};
ghost use Rattle.elab_unfold.specs.Whole.{IsWhole};

use crate::deep::push_module;
use crate::shape::Plan;
use crate::state::State;
use ila_base::{Items, NoMemory};
use std::alloc::Global;

/// The groups and cells of a design in flat order, with a cell for each link. It takes time linear in
/// what comes out.
pub fn unfold_plan(alloc: Global, plan: &Plan) -> Result<State, NoMemory>
    requires plan { IsPlan plan.now }
    requires few { shape_size plan.now plan.now.top < 2 ^ 32 }
    ensures { IfOk result (IsWhole plan.now) }
{
    let mut state = State {
        groups: Items::new(alloc),
        cells: Items::new(alloc),
        nets: 0,
        prefix: Vec::new(alloc),
    };
    push_module(alloc, plan, plan.top, &mut state)?;
    Ok(state)
}
