ghost use Rattle.std.specs.Prelude.{◌≡◌, ℕ, ◌<◌, ◌↔◌, true, length, slice_get, Some, IfOk, OnOk};
ghost use Rattle.net_graph.specs.Graph.{Leads, node_count};
ghost use Rattle.net_graph.specs.Reach.{Reaches, MarksOne, Marks};
ghost use Rattle.net_graph.specs.Lists.{IsIn, is_marked};

use crate::graph::Graph;
use ila_base::NoMemory;
use std::alloc::Global;

// The nodes that lead to this one along one edge.
fn sources_of(graph: &Graph, node: u32) -> &[u32]
    requires { node < node_count graph.now }
    ensures { (m : ℕ) → IsIn result.now m ↔ Leads graph.now m node }
{
    &graph.sources[graph.starts[node as usize]..graph.starts[node as usize + 1]]
}

// Marks a node, and lists it if it was not marked.
fn mark(marks: &mut Vec<bool>, list: &mut Vec<u32>, node: u32) -> Result<(), NoMemory>
    requires { node < length marks.old.items }
    ensures { OnOk result (MarksOne node marks.old.items marks.new.items list.old.items list.new.items) }
{
    if marks[node as usize] {
        return Ok(());
    }
    list.push(node)?;
    marks[node as usize] = true;
    Ok(())
}

// Marks the nodes, and lists those that were not marked.
fn mark_all(marks: &mut Vec<bool>, list: &mut Vec<u32>, nodes: &[u32]) -> Result<(), NoMemory>
    requires { (n : ℕ) → IsIn nodes.now n → n < length marks.old.items }
    ensures { OnOk result (Marks nodes.now (length nodes.now) marks.old.items marks.new.items list.old.items list.new.items) }
{
    for node in nodes {
        mark(marks, list, *node)?;
    }
    Ok(())
}

/// Which nodes lead to one of these, along no edge or more: a mark for each node. It takes time linear
/// in the nodes and edges, and no recursion.
pub fn reaching(alloc: Global, graph: &Graph, ends: &[u32]) -> Result<Vec<bool>, NoMemory>
    requires { (n : ℕ) → IsIn ends.now n → n < node_count graph.now }
    ensures size { IfOk result (λ marks. length marks.items ≡ node_count graph.now) }
    ensures marked { IfOk result (λ marks. (n : ℕ) → (is_marked marks.items n ≡ true) ↔ Reaches graph.now ends.now n) }
{
    let mut marks = vec![in alloc; false; graph.starts.len() - 1]?;
    let mut list = Vec::new(alloc);
    mark_all(&mut marks, &mut list, ends)?;
    let mut at = 0;
    while at < list.len() {
        let node = list[at];
        mark_all(&mut marks, &mut list, sources_of(graph, node))?;
        at += 1;
    }
    Ok(marks)
}

#[cfg(test)]
mod tests {
    use super::*;
    use std::test::Fail;

    // 2 leads to 0 and 0 to 1; 3 leads to itself.
    #[test]
    fn marks_what_leads_there(rt: HostRuntime) -> Result<(), Fail> {
        let starts = [0, 1, 2, 2, 3].to_vec(rt.alloc())?;
        let sources = [2, 0, 3].to_vec(rt.alloc())?;
        let graph = Graph::from_rows(starts, sources).ok_or("no rows")?;
        let ends = [1];
        assert!(rt; graph.starts.len() == 5);
        let marks = reaching(rt.alloc(), &graph, ends.as_slice())?;
        assert_eq!(rt; marks.as_slice(), [true, true, true, false].as_slice());
        Ok(())
    }
}
