ghost use Rattle.std.specs.Prelude.{◌≡◌, ℕ, ◌-◌, ◌<◌, ◌^◌, ◌↔◌, true, List, length, Some, IfOk};
ghost use Rattle.vlog_parse.specs.ReadTree.{IsReadTree};
ghost use Rattle.vlog_check.specs.Checked.{IsChecked, IsBelow};
ghost use Rattle.vlog_check.specs.Scope.{module_number};
ghost use Rattle.net_graph.specs.Graph.{IsCycle, Leads};
ghost use Rattle.net_graph.specs.Lists.{is_marked};
ghost use Rattle.elab_count.specs.Counting.{AreCounts, IsPart};
ghost use Rattle.elab_scope.specs.Modules.{AreNumbered};
ghost use Rattle.elab_scope.specs.Nets.{AreNetsOfAll};
ghost use Rattle.elab_count.specs.Amounts.{AreCapped};
ghost use Rattle.elab_count.specs.Instances.{AreInOrder, AreSorted, IsSorting};
ghost use Rattle.elab_count.specs.Progress.{IsOneCounted, AreCountedTo};

use crate::amounts::{Count, Counts};
use crate::graph::instance_graph;
use crate::items::count_module;
use elab_scope::{Modules, Nets, read_modules};
use ila_base::NoMemory;
use net_graph::{Graph, Order, ranks, reaching};
use std::alloc::Global;
use vlog_parse::Tree;

// Which modules are the top or below it.
fn below_top(alloc: Global, modules: &Modules, top: usize) -> Result<Vec<bool>, NoMemory>
    requires numbered { AreNumbered modules.now }
    requires few { length (modules.now.tree.now).modules < 2 ^ 32 - 1 }
    requires top { top < length (modules.now.tree.now).modules }
    ensures size { IfOk result (λ below. length below.items ≡ length (modules.now.tree.now).modules) }
    ensures marked { IfOk result (λ below. (n : ℕ) → (is_marked below.items n ≡ true) ↔ IsPart modules.now.tree.now top n) }
{
    let all = vec![in alloc; true; modules.tree.modules.len()]?;
    let graph = instance_graph(alloc, modules, all.as_slice())?;
    let ends = [top as u32];
    let below = reaching(alloc, &graph, ends.as_slice())?;
    Ok(below)
}

// The numbers of nodes, each with its node, in rising order.
fn by_rank(alloc: Global, ranks: &[u32]) -> Result<Vec<(u32, u32)>, NoMemory>
    requires { length ranks.now < 2 ^ 32 }
    ensures { IfOk result (λ order. AreSorted ranks.now order.items) }
{
    let mut order = Vec::new(alloc);
    for (k, rank) in ranks.iter().enumerate() {
        order.push((*rank, k as u32))?;
    }
    order.sort_unstable();
    Ok(order)
}

// The nodes of a graph without cycles, each behind those that lead to it.
fn sorted(alloc: Global, graph: &Graph) -> Result<Vec<(u32, u32)>, NoMemory>
    requires { (nodes : List ℕ) → ¬ IsCycle (Leads graph.now) nodes }
    ensures { IfOk result (λ order. IsSorting graph.now order.items) }
{
    match ranks(alloc, graph)? {
        Order::Ranked(ranks) => {
            let order = by_rank(alloc, ranks.as_slice())?;
            Ok(order)
        }
        Order::Cycle(_) => Ok(Vec::new(alloc)),
    }
}

// The modules in an order in which each stands behind those that it has instances of, if it is wanted.
fn in_order(alloc: Global, modules: &Modules, wanted: &[bool]) -> Result<Vec<(u32, u32)>, NoMemory>
    requires numbered { AreNumbered modules.now }
    requires few { length (modules.now.tree.now).modules < 2 ^ 32 - 1 }
    requires size { length wanted.now ≡ length (modules.now.tree.now).modules }
    requires ends { (n : ℕ) → is_marked wanted.now n ≡ true → ¬ IsBelow modules.now.tree.now n n }
    ensures { IfOk result (λ order. AreInOrder modules.now.tree.now wanted.now order.items) }
{
    let graph = instance_graph(alloc, modules, wanted)?;
    let order = sorted(alloc, &graph)?;
    Ok(order)
}

// Counts the module with a number, if it is wanted.
fn count_one(
    modules: &Modules,
    nets: &[Nets],
    wanted: bool,
    k: usize,
    table: &mut Vec<Option<Count>>,
)
    requires numbered { AreNumbered modules.now }
    requires nets { AreNetsOfAll (modules.now.tree.now).modules nets.now }
    requires within { k < length (modules.now.tree.now).modules }
    requires size { length table.old.items ≡ length (modules.now.tree.now).modules }
    requires capped { AreCapped table.old.items }
    ensures { IsOneCounted modules.now.tree.now wanted k table.old.items table.new.items }
{
    if !wanted {
        return;
    }
    let m = &modules.tree.modules.as_slice()[k];
    let count = count_module(modules, table.as_slice(), m, &nets[k]);
    table[k] = Some(count);
}

// The counts of the wanted modules, which are taken in order.
fn count_wanted(
    alloc: Global,
    modules: &Modules,
    nets: &[Nets],
    wanted: &[bool],
    order: &[(u32, u32)],
) -> Result<Vec<Option<Count>>, NoMemory>
    requires numbered { AreNumbered modules.now }
    requires nets { AreNetsOfAll (modules.now.tree.now).modules nets.now }
    requires size { length wanted.now ≡ length (modules.now.tree.now).modules }
    requires order { AreInOrder modules.now.tree.now wanted.now order.now }
    ensures { IfOk result (λ table. AreCountedTo modules.now.tree.now wanted.now order.now (length order.now) table.items) }
{
    let mut table = vec![in alloc; None; wanted.len()]?;
    for node in order {
        let k = node.1 as usize;
        count_one(modules, nets, wanted[k], k, &mut table);
    }
    Ok(table)
}

/// What the top of a checked tree and the modules below it count, given the nets of all modules.
pub fn count_all(alloc: Global, tree: &Tree, nets: &[Nets], top: usize) -> Result<Counts, NoMemory>
    requires read { IsReadTree tree.now }
    requires nets { AreNetsOfAll tree.now.modules nets.now }
    requires checked { (name : List ℕ) × IsChecked tree.now name × (module_number tree.now name ≡ Some top) }
    ensures { IfOk result (λ counts. AreCounts tree.now top counts.table.items) }
{
    let modules = read_modules(alloc, tree)?;
    let below = below_top(alloc, &modules, top)?;
    let order = in_order(alloc, &modules, below.as_slice())?;
    let table = count_wanted(alloc, &modules, nets, below.as_slice(), order.as_slice())?;
    Ok(Counts { table })
}
