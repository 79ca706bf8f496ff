ghost use Rattle.std.specs.Prelude.{◌≡◌, ℕ, ◌+◌, ◌<◌, ◌≤◌, List, [], ◌∷◌, ◌++◌, length, slice_get, slice_index, Some, IfOk, IfSome, IfNone, OnOk, MatchOption};
ghost use Rattle.net_graph.specs.Rows.{RowHas, AreRows};
ghost use Rattle.net_graph.specs.Search.{IsSearch, KeepsSeen, ClosesAt, work};
ghost use Rattle.net_graph.specs.declared.search.Visit.TheVariants.{New, Open};

use crate::graph::Graph;
use ila_base::NoMemory;

// How far the search is with a node: it is done with a node, and has numbered it, when it is done
// with all nodes that lead to it.
#[derive(Clone, Copy, Drop)]
pub enum Visit {
    New,
    Open,
    Done(u32),
}

// An open node, and the place among the sources of its edge that is to be followed next.
#[derive(Clone, Copy, Drop)]
pub struct Step {
    pub node: u32,
    pub next: usize,
}

// The search: how far it is with each node, its path of open nodes, and how many nodes are done.
#[derive(Drop)]
pub struct Search {
    pub visits: Vec<Visit>,
    pub path: Vec<Step>,
    pub found: u32,
}

impl Search {
    // Opens a new node that leads to the last one of the path.
    pub fn open(&mut self, graph: &Graph, node: u32) -> Result<(), NoMemory>
        requires search { IsSearch graph.now.starts.items graph.now.sources.items self.old.visits.items self.old.path.items self.old.found }
        requires new { slice_get self.old.visits.items node ≡ Some New }
        requires leads { (i : ℕ) (s : _) → slice_get self.old.path.items i ≡ Some s → i + 1 ≡ length self.old.path.items → RowHas graph.now.starts.items graph.now.sources.items node s.node }
        ensures search { OnOk result (IsSearch graph.now.starts.items graph.now.sources.items self.new.visits.items self.new.path.items self.new.found) }
        ensures opened { OnOk result (slice_get self.new.visits.items node ≡ Some Open) }
        ensures less { OnOk result (work graph.now.sources.items self.new.visits.items self.new.path.items < work graph.now.sources.items self.old.visits.items self.old.path.items) }
        ensures seen { OnOk result (KeepsSeen self.old.visits.items self.new.visits.items) }
    {
        self.path.push(Step {
            node,
            next: graph.starts[node as usize],
        })?;
        self.visits[node as usize] = Visit::Open;
        Ok(())
    }
    // Follows the next edge to the node of a step that was the last of the path, or is done with the
    // node. It answers the open node from which the edge comes, where it closes a cycle.
    fn turn(&mut self, graph: &Graph, step: Step) -> Result<Option<u32>, NoMemory>
        requires { IsSearch graph.now.starts.items graph.now.sources.items self.old.visits.items (self.old.path.items ++ step ∷ []) self.old.found }
        ensures search { OnOk result (IsSearch graph.now.starts.items graph.now.sources.items self.new.visits.items self.new.path.items self.new.found) }
        ensures seen { OnOk result (KeepsSeen self.old.visits.items self.new.visits.items) }
        ensures cases { IfOk result (λ closing. MatchOption closing (work graph.now.sources.items self.new.visits.items self.new.path.items < work graph.now.sources.items self.old.visits.items (self.old.path.items ++ step ∷ [])) (λ m. ClosesAt graph.now.starts.items graph.now.sources.items self.new.visits.items self.new.path.items m)) }
    {
        match source_at(graph, step) {
            None => {
                self.visits[step.node as usize] = Visit::Done(self.found);
                self.found += 1;
                Ok(None)
            }
            Some(source) => match self.visits[source as usize] {
                Visit::New => {
                    self.path.push(step)?;
                    self.open(graph, source)?;
                    Ok(None)
                }
                Visit::Open => {
                    self.path.push(step)?;
                    Ok(Some(source))
                }
                Visit::Done(_) => {
                    self.path.push(Step {
                        node: step.node,
                        next: step.next + 1,
                    })?;
                    Ok(None)
                }
            },
        }
    }

    // Follows edges until the path is empty, or one closes a cycle with the path: then it answers the
    // open node from which that edge comes.
    pub fn run(&mut self, graph: &Graph) -> Result<Option<u32>, NoMemory>
        requires { IsSearch graph.now.starts.items graph.now.sources.items self.old.visits.items self.old.path.items self.old.found }
        ensures search { OnOk result (IsSearch graph.now.starts.items graph.now.sources.items self.new.visits.items self.new.path.items self.new.found) }
        ensures seen { OnOk result (KeepsSeen self.old.visits.items self.new.visits.items) }
        ensures cases { IfOk result (λ closing. MatchOption closing (self.new.path.items ≡ []) (λ m. ClosesAt graph.now.starts.items graph.now.sources.items self.new.visits.items self.new.path.items m)) }
    {
        while let Some(step) = self.path.pop() {
            let closing = self.turn(graph, step)?;
            if closing.is_some() {
                return Ok(closing);
            }
        }
        Ok(None)
    }
}

// The node that leads to the step's node along its next edge.
pub fn source_at(graph: &Graph, step: Step) -> Option<u32>
    requires { step.node + 1 < length graph.now.starts.items }
    ensures found { IfSome result (λ m. (step.next < slice_index graph.now.starts.items (step.node + 1)) × (slice_get graph.now.sources.items step.next ≡ Some m)) }
    ensures missing { IfNone result (slice_index graph.now.starts.items (step.node + 1) ≤ step.next) }
{
    if step.next < graph.starts[step.node as usize + 1] {
        Some(graph.sources[step.next])
    } else {
        None
    }
}
