//! Modules in one another (IEEE 1364-2005, 12.1.2).

ghost use Rattle.std.specs.Prelude.{◌≡◌, ◌<◌, ◌≤◌, ◌++◌, length, filter_map, IfOk, OnOk};
ghost use Rattle.vlog_check.specs.Design.{IsScope};
ghost use Rattle.vlog_check.specs.Contained.{inner_number, IsInnerGraph, IsFirstInside};

use crate::modules::Scope;
use crate::primitive::cell_of;
use ila_base::NoMemory;
use net_graph::{Graph, least_recurrent};
use std::alloc::Global;
use vlog_parse::{Item, Module};

// The number of the module that an item is an instance of.
fn inner_number(scope: &Scope, item: &Item) -> Option<u32>
    requires scope { IsScope scope.now.tree.now scope.now }
    requires few { length scope.now.tree.now.modules ≤ 67108864 }
    ensures { result ≡ inner_number scope.now.tree.now item.now }
{
    match item {
        Item::Inst(i) => {
            if cell_of(i.module.bytes()).is_some() {
                return None;
            }
            match scope.modules.get(i.module.bytes()) {
                None => None,
                Some(number) => Some(number as u32),
            }
        }
        _ => None,
    }
}

// Adds the numbers of the modules that a module has instances of.
fn add_inner(scope: &Scope, m: &Module, inner: &mut Vec<u32>) -> Result<(), NoMemory>
    requires scope { IsScope scope.now.tree.now scope.now }
    requires few { length scope.now.tree.now.modules ≤ 67108864 }
    ensures { OnOk result (inner.new.items ≡ inner.old.items ++ filter_map (inner_number scope.now.tree.now) m.now.items) }
{
    for item in m.items.as_slice() {
        if let Some(number) = inner_number(scope, item) {
            inner.push(number)?;
        }
    }
    Ok(())
}

// The graph in which each module leads to those that have an instance of it.
fn inner_graph(alloc: Global, scope: &Scope) -> Result<Graph, NoMemory>
    requires scope { IsScope scope.now.tree.now scope.now }
    requires few { length scope.now.tree.now.modules ≤ 67108864 }
    ensures { IfOk result (IsInnerGraph scope.now.tree.now) }
{
    let mut starts = Vec::new(alloc);
    let mut sources = Vec::new(alloc);
    starts.push(0)?;
    for m in scope.tree.modules.as_slice() {
        add_inner(scope, m, &mut sources)?;
        starts.push(sources.len())?;
    }
    Ok(Graph { starts, sources })
}

/// Of the top and the modules below it, the number of the first that contains itself, at any depth.
/// It takes time linear in the modules and their instances, and no recursion.
pub fn first_inside(alloc: Global, scope: &Scope, top: usize) -> Result<Option<usize>, NoMemory>
    requires scope { IsScope scope.now.tree.now scope.now }
    requires few { length scope.now.tree.now.modules ≤ 67108864 }
    requires top { top < length scope.now.tree.now.modules }
    ensures { IfOk result (IsFirstInside scope.now.tree.now top) }
{
    let graph = inner_graph(alloc, scope)?;
    match least_recurrent(alloc, &graph, top as u32)? {
        None => Ok(None),
        Some(number) => Ok(Some(number as usize)),
    }
}
