//! What is kept of the modules of a checked hierarchy while it is unfolded.
ghost use Rattle.std.specs.Prelude.{◌≡◌, ◌≤◌, Some, IfOk};
ghost use Rattle.ila_base.specs.declared.limits.TheConstants.{NETS};
ghost use Rattle.vlog_check.specs.Checked.{IsChecked};
ghost use Rattle.vlog_check.specs.Scope.{module_number};
ghost use Rattle.elab_count.specs.Counting.{AreCounts, count_at};
ghost use Rattle.elab_scope.specs.Nets.{AreNetsOfAll};
ghost use Rattle.elab_unfold.specs.Shapes.{IsPlan, shape_size};
ghost use Rattle.elab_unfold.specs.Parts.{IsWithin};

use crate::plan::read_shapes;
use crate::shape::Plan;
use elab_count::Counts;
use elab_scope::{Nets, read_modules};
use ila_base::NoMemory;
use std::alloc::Global;
use vlog_parse::Tree;

/// The plan of a checked design whose counts are within the limits.
pub fn read_plan<'a>(
    alloc: Global,
    tree: &'a Tree,
    name: &'a [u8],
    clock: &'a [u8],
    top: usize,
    nets: &'a [Nets<'a>],
    counts: &Counts,
) -> Result<Plan<'a>, NoMemory>
    requires checked { IsChecked tree.now name.now }
    requires top { module_number tree.now name.now ≡ Some top }
    requires nets { AreNetsOfAll tree.now.modules nets.now }
    requires counts { AreCounts tree.now top counts.now.table.items }
    requires few { IsWithin (count_at counts.now.table.items top) }
    ensures plan { IfOk result IsPlan }
    ensures size { IfOk result (λ plan. shape_size plan plan.top ≤ NETS) }
    ensures tree { IfOk result (λ plan. plan.tree.now ≡ tree.now) }
    ensures name { IfOk result (λ plan. plan.name.now ≡ name.now) }
    ensures clock { IfOk result (λ plan. plan.clock.now ≡ clock.now) }
    ensures top { IfOk result (λ plan. plan.top ≡ top) }
{
    let modules = read_modules(alloc, tree)?;
    let shapes = read_shapes(alloc, &modules, nets, counts.table.as_slice())?;
    Ok(Plan {
        tree,
        name,
        clock,
        top,
        shapes,
    })
}
