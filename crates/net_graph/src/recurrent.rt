ghost use Rattle.std.specs.Prelude.{◌<◌, IfOk};
ghost use Rattle.net_graph.specs.Graph.{node_count};
ghost use Rattle.net_graph.specs.Recurrent.{IsLeastRecurrent};

use crate::components::{Split, Stage};
use crate::graph::Graph;
use ila_base::NoMemory;
use std::alloc::Global;

/// Of a node and those that lead to it, the least that leads to itself along one edge or more. It
/// takes time linear in the nodes and edges, and no recursion.
pub fn least_recurrent(alloc: Global, graph: &Graph, end: u32) -> Result<Option<u32>, NoMemory>
    requires { end < node_count graph.now }
    ensures { IfOk result (IsLeastRecurrent graph.now end) }
{
    let mut split = Split {
        stages: vec![in alloc; Stage::New; graph.starts.len() - 1]?,
        members: Vec::new(alloc),
        bounds: Vec::new(alloc),
        path: Vec::new(alloc),
        least: None,
    };
    split.open(graph, end)?;
    split.run(graph)?;
    Ok(split.least)
}

#[cfg(test)]
mod tests {
    use super::*;
    use std::test::Fail;

    // The least node that leads to itself, of a graph whose nodes have the rows of those that lead to
    // them.
    fn least_of(
        rt: &HostRuntime,
        starts: &[usize],
        sources: &[u32],
        end: u32,
    ) -> Result<Option<u32>, Fail> {
        let starts = starts.to_vec(rt.alloc())?;
        let sources = sources.to_vec(rt.alloc())?;
        let graph = Graph::from_rows(starts, sources).ok_or("no rows")?;
        if graph.starts.len() <= end as usize + 1 {
            return Err(Fail::from("no node"));
        }
        Ok(least_recurrent(rt.alloc(), &graph, end)?)
    }

    // Node 4 has 3 and 0, node 3 has 2, and 2 has 1 and 3; 1 has itself; 0 has none.
    #[test]
    fn finds_the_least(rt: HostRuntime) -> Result<(), Fail> {
        let starts = [0, 0, 1, 3, 4, 6];
        let sources = [1, 1, 3, 2, 3, 0];
        let all = least_of(&rt, starts.as_slice(), sources.as_slice(), 4)?;
        assert_eq!(rt; all, Some(1));
        let none = least_of(&rt, starts.as_slice(), sources.as_slice(), 0)?;
        assert_eq!(rt; none, None);
        Ok(())
    }

    // A ring of three with a way to it, and a node behind it.
    #[test]
    fn finds_in_a_ring(rt: HostRuntime) -> Result<(), Fail> {
        let starts = [0, 1, 2, 3, 4, 4];
        let sources = [1, 2, 3, 1];
        let least = least_of(&rt, starts.as_slice(), sources.as_slice(), 0)?;
        assert_eq!(rt; least, Some(1));
        Ok(())
    }

    // Two ways to one node are no ring.
    #[test]
    fn finds_none_in_a_diamond(rt: HostRuntime) -> Result<(), Fail> {
        let starts = [0, 2, 3, 4, 4];
        let sources = [1, 2, 3, 3];
        let least = least_of(&rt, starts.as_slice(), sources.as_slice(), 0)?;
        assert_eq!(rt; least, None);
        Ok(())
    }
}
