ghost use Rattle.std.specs.Prelude.{◌≡◌, ℕ, ◌+◌, ◌<◌, ◌≤◌, [], map, IfOk, OnOk, MatchOption, IsTrue, ◌↔◌, length, slice_get, Some};
ghost use Rattle.net_graph.specs.Graph.{IsOrder};
ghost use Rattle.net_graph.specs.Search.{IsSearch, KeepsSeen, ClosesAt, number_of};
ghost use Rattle.net_graph.specs.declared.search.Visit.TheVariants.{New};
ghost use Rattle.net_graph.specs.declared.search.Visit.{Visit as VisitOf};

use crate::cycle::loop_at;
use crate::graph::{Graph, Order};
use crate::search::{Search, Visit};
use ila_base::NoMemory;
use std::alloc::Global;

// The search before its first step: all nodes are new.
fn start(alloc: Global, graph: &Graph) -> Result<Search, NoMemory>
    ensures { IfOk result (λ search. IsSearch graph.now.starts.items graph.now.sources.items search.visits.items search.path.items search.found × (search.path.items ≡ [])) }
{
    Ok(Search {
        visits: vec![in alloc; Visit::New; graph.starts.len() - 1]?,
        path: Vec::new(alloc),
        found: 0,
    })
}

// Searches from a node on, if it is new. It answers the open node with which the path closes a cycle.
fn search_from(search: &mut Search, graph: &Graph, root: u32) -> Result<Option<u32>, NoMemory>
    requires search { IsSearch graph.now.starts.items graph.now.sources.items search.old.visits.items search.old.path.items search.old.found }
    requires empty { search.old.path.items ≡ [] }
    requires root { root < length search.old.visits.items }
    ensures search { OnOk result (IsSearch graph.now.starts.items graph.now.sources.items search.new.visits.items search.new.path.items search.new.found) }
    ensures seen { OnOk result (KeepsSeen search.old.visits.items search.new.visits.items) }
    ensures cases { IfOk result (λ closing. MatchOption closing ((search.new.path.items ≡ []) × ¬ (slice_get search.new.visits.items root ≡ Some New)) (λ m. ClosesAt graph.now.starts.items graph.now.sources.items search.new.visits.items search.new.path.items m)) }
{
    match search.visits[root as usize] {
        Visit::New => {
            search.open(graph, root)?;
            let closing = search.run(graph)?;
            Ok(closing)
        }
        _ => Ok(None),
    }
}

// Searches from each node. It answers the open node with which the path closes a cycle.
fn search_all(search: &mut Search, graph: &Graph) -> Result<Option<u32>, NoMemory>
    requires search { IsSearch graph.now.starts.items graph.now.sources.items search.old.visits.items search.old.path.items search.old.found }
    requires empty { search.old.path.items ≡ [] }
    ensures search { OnOk result (IsSearch graph.now.starts.items graph.now.sources.items search.new.visits.items search.new.path.items search.new.found) }
    ensures cases { IfOk result (λ closing. MatchOption closing ((search.new.path.items ≡ []) × ((n : ℕ) → ¬ (slice_get search.new.visits.items n ≡ Some New))) (λ m. ClosesAt graph.now.starts.items graph.now.sources.items search.new.visits.items search.new.path.items m)) }
{
    for root in 0..search.visits.len() {
        let closing = search_from(search, graph, root as u32)?;
        if closing.is_some() {
            return Ok(closing);
        }
    }
    Ok(None)
}

// The numbers of the done nodes.
fn numbers(alloc: Global, visits: &[Visit]) -> Result<Vec<u32>, NoMemory>
    ensures { IfOk result (λ numbers. numbers.items ≡ map number_of visits.now) }
{
    Ok(
        visits
            .iter()
            .map(|visit| match visit {
                Visit::Done(number) => *number,
                _ => 0,
            })
            .collect(alloc)?,
    )
}

/// For each node a number, such that each edge goes from a lower to a higher one, or else a cycle.
/// It takes time linear in the nodes and edges, and no recursion.
pub fn ranks(alloc: Global, graph: &Graph) -> Result<Order, NoMemory>
    ensures { IfOk result (λ order. IsOrder graph.now order) }
{
    let mut search = start(alloc, graph)?;
    match search_all(&mut search, graph)? {
        Some(node) => Ok(Order::Cycle(loop_at(alloc, search.path.as_slice(), node)?)),
        None => Ok(Order::Ranked(numbers(alloc, search.visits.as_slice())?)),
    }
}

#[cfg(test)]
mod tests {
    use super::*;
    use std::test::Fail;

    // The order of the nodes of a graph, each with the row of those that lead to it.
    fn order_of(rt: &HostRuntime, starts: &[usize], sources: &[u32]) -> Result<Order, Fail> {
        let starts = starts.to_vec(rt.alloc())?;
        let sources = sources.to_vec(rt.alloc())?;
        let graph = Graph::from_rows(starts, sources).ok_or("no rows")?;
        Ok(ranks(rt.alloc(), &graph)?)
    }

    fn cycle_of(rt: &HostRuntime, starts: &[usize], sources: &[u32]) -> Result<Vec<u32>, Fail> {
        match order_of(rt, starts, sources)? {
            Order::Cycle(nodes) => Ok(nodes),
            Order::Ranked(_) => Err(Fail::from("ranked")),
        }
    }

    // Two gates that feed each other (nets a, b, q, n), a net that feeds itself, and a loop of three
    // behind a net that is on none.
    #[test]
    fn finds_cycles(rt: HostRuntime) -> Result<(), Fail> {
        let latch = cycle_of(&rt, [0, 0, 0, 2, 4].as_slice(), [0, 3, 2, 1].as_slice())?;
        assert_eq!(rt; latch.as_slice(), [2, 3].as_slice());
        let own = cycle_of(&rt, [0, 0, 1].as_slice(), [1].as_slice())?;
        assert_eq!(rt; own.as_slice(), [1].as_slice());
        let three = cycle_of(&rt, [0, 1, 2, 3, 4].as_slice(), [1, 3, 1, 2].as_slice())?;
        assert_eq!(rt; three.as_slice(), [1, 2, 3].as_slice());
        Ok(())
    }

    // An inverter of an inverter that stands behind it: net 1 comes from 2 and 2 from 0.
    #[test]
    fn ranks_a_chain(rt: HostRuntime) -> Result<(), Fail> {
        match order_of(&rt, [0, 0, 1, 2].as_slice(), [2, 0].as_slice())? {
            Order::Ranked(ranks) => assert_eq!(rt; ranks.as_slice(), [0, 2, 1].as_slice()),
            Order::Cycle(_) => return Err(Fail::from("cycle")),
        }
        Ok(())
    }

    #[test]
    fn refuses_what_are_no_rows(rt: HostRuntime) -> Result<(), Fail> {
        let starts = [0, 1].to_vec(rt.alloc())?;
        let sources = [1].to_vec(rt.alloc())?;
        assert!(rt; Graph::from_rows(starts, sources).is_none());
        Ok(())
    }
}
