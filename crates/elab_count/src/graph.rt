ghost use Rattle.std.specs.Prelude.{◌≡◌, ◌-◌, ◌<◌, ◌^◌, ◌++◌, length, IfOk, OnOk};
ghost use Rattle.elab_scope.specs.Modules.{AreNumbered};
ghost use Rattle.elab_count.specs.Instances.{contained_by, contained_where, IsInstanceGraph};

use elab_scope::{Modules, Part, part_of};
use ila_base::NoMemory;
use net_graph::Graph;
use std::alloc::Global;
use vlog_parse::{Item, Module};

// The number of the module that an item is an instance of.
fn contained_by(modules: &Modules, item: &Item) -> Option<u32>
    requires numbered { AreNumbered modules.now }
    requires few { length (modules.now.tree.now).modules < 2 ^ 32 - 1 }
    ensures { result ≡ contained_by modules.now.tree.now item.now }
{
    match item {
        Item::Inst(inst) => match part_of(modules, inst) {
            Some(Part::Module(number)) => Some(number as u32),
            Some(Part::Cell(_)) => None,
            None => None,
        },
        Item::Net(_) => None,
        Item::Assign(_, _) => None,
        Item::Gate(_) => None,
    }
}

// Adds the numbers of the modules of which a module has instances, if it is wanted.
fn push_row(
    modules: &Modules,
    m: &Module,
    wanted: bool,
    sources: &mut Vec<u32>,
) -> Result<(), NoMemory>
    requires numbered { AreNumbered modules.now }
    requires few { length (modules.now.tree.now).modules < 2 ^ 32 - 1 }
    ensures { OnOk result (sources.new.items ≡ sources.old.items ++ contained_where modules.now.tree.now m.now wanted) }
{
    if !wanted {
        return Ok(());
    }
    for item in m.items.as_slice() {
        if let Some(number) = contained_by(modules, item) {
            sources.push(number)?;
        }
    }
    Ok(())
}

/// The graph of the modules of which some are wanted: an edge leads from the module of an instance to
/// a wanted module that has the instance.
pub fn instance_graph(alloc: Global, modules: &Modules, wanted: &[bool]) -> Result<Graph, NoMemory>
    requires numbered { AreNumbered modules.now }
    requires few { length (modules.now.tree.now).modules < 2 ^ 32 - 1 }
    requires size { length wanted.now ≡ length (modules.now.tree.now).modules }
    ensures { IfOk result (IsInstanceGraph modules.now.tree.now wanted.now) }
{
    let mut starts = vec![in alloc; 0usize]?;
    let mut sources = Vec::new(alloc);
    for (k, m) in modules.tree.modules.as_slice().iter().enumerate() {
        push_row(modules, m, wanted[k], &mut sources)?;
        starts.push(sources.len())?;
    }
    Ok(Graph { starts, sources })
}
