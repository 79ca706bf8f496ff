ghost use Rattle.std.specs.Prelude.{◌≡◌, ℕ, ◌+◌, ◌<◌, ◌≤◌, List, [], ◌∷◌, ◌++◌, drop, length, slice_get, Some, IfOk, OnOk, take};
ghost use Rattle.net_graph.specs.Lists.{IsIn};
ghost use Rattle.net_graph.specs.Graph.{Leads};
ghost use Rattle.net_graph.specs.Recurrent.{LeadsTo};
ghost use Rattle.net_graph.specs.Components.{IsSplit, IsSettled, KeepsSeen, AreCut, AreDone, AreNoted, KeepsPath, IsOver, work};
ghost use Rattle.net_graph.specs.declared.components.Stage.TheVariants.{New};

use crate::graph::Graph;
use crate::search::{Step, source_at};
use ila_base::NoMemory;

// How far the search is with a node. An open one has its place among the open ones.
#[derive(Clone, Copy, Drop)]
pub enum Stage {
    New,
    Open(usize),
    Done,
}

// An open node, by its place, and the place among the sources of its edge that is to be followed
// next.
#[derive(Clone, Copy, Drop)]
pub struct Branch {
    pub place: usize,
    pub next: usize,
}

// The search: how far it is with each node, its open nodes, the places where their groups begin, those
// of which edges are left, and the least node that was found to lead to itself.
#[derive(Drop)]
pub struct Split {
    pub stages: Vec<Stage>,
    pub members: Vec<u32>,
    pub bounds: Vec<usize>,
    pub path: Vec<Branch>,
    pub least: Option<u32>,
}

// The lesser of a node and what was found.
fn note(least: Option<u32>, node: u32) -> Option<u32>
    ensures { AreNoted (node ∷ []) least result }
{
    match least {
        None => Some(node),
        Some(other) => {
            if node < other {
                Some(node)
            } else {
                Some(other)
            }
        }
    }
}

// The lesser of a node and what was found, where an edge leads from the node to itself.
fn note_own(least: Option<u32>, node: u32, source: u32) -> Option<u32>
    ensures own { source ≡ node → AreNoted (source ∷ []) least result }
    ensures other { (source ≡ node → ⊥) → result ≡ least }
{
    if source == node {
        note(least, source)
    } else {
        least
    }
}

// The least of these nodes and what was found.
fn note_all(least: Option<u32>, nodes: &[u32]) -> Option<u32>
    ensures { AreNoted nodes.now least result }
{
    let mut best = least;
    for node in nodes {
        best = note(best, *node);
    }
    best
}

// Is done with these nodes.
fn finish(stages: &mut Vec<Stage>, nodes: &[u32])
    requires { (n : ℕ) → IsIn nodes.now n → n < length stages.old.items }
    ensures { AreDone nodes.now stages.old.items stages.new.items }
{
    for node in nodes {
        stages[*node as usize] = Stage::Done;
    }
}

// Makes one group of the groups from the one of this place on.
fn join(bounds: &mut Vec<usize>, place: usize)
    requires { (i j b c : ℕ) → i < j → slice_get bounds.old.items i ≡ Some b → slice_get bounds.old.items j ≡ Some c → b < c }
    ensures { AreCut place bounds.old.items bounds.new.items }
{
    while !bounds.is_empty() && place < bounds[bounds.len() - 1] {
        let _ = bounds.pop();
    }
}

impl Split {
    // Opens a new node that leads to all open ones, in a group behind theirs.
    pub fn open(&mut self, graph: &Graph, node: u32) -> Result<(), NoMemory>
        ghost end: { ℕ }
        requires split { IsSplit graph.now end self.old.stages.items self.old.members.items self.old.bounds.items self.old.path.items self.old.least }
        requires new { slice_get self.old.stages.items node ≡ Some New }
        requires leads { (i n : ℕ) → slice_get self.old.members.items i ≡ Some n → LeadsTo graph.now node n }
        requires below { LeadsTo graph.now node end }
        ensures split { OnOk result (IsSplit graph.now end self.new.stages.items self.new.members.items self.new.bounds.items self.new.path.items self.new.least) }
        ensures members { OnOk result (self.new.members.items ≡ self.old.members.items ++ node ∷ []) }
        ensures settled { OnOk result ((i n : ℕ) → slice_get self.old.members.items i ≡ Some n → IsSettled self.new.stages.items self.new.bounds.items self.new.least i n node) }
        ensures path { OnOk result (KeepsPath self.old.path.items self.new.path.items) }
        ensures less { OnOk result (work graph.now self.new.stages.items self.new.path.items < work graph.now self.old.stages.items self.old.path.items) }
        ensures seen { OnOk result (KeepsSeen self.old.stages.items self.new.stages.items) }
    {
        let place = self.members.len();
        self.members.push(node)?;
        self.bounds.push(place)?;
        self.path.push(Branch {
            place,
            next: graph.starts[node as usize],
        })?;
        self.stages[node as usize] = Stage::Open(place);
        Ok(())
    }

    // Follows an edge from a node to an open one of the last group, which has this place.
    fn settle(&mut self, graph: &Graph, place: usize, source: u32) -> Result<(), NoMemory>
        ghost end: { ℕ }
        requires split { IsSplit graph.now end self.old.stages.items self.old.members.items self.old.bounds.items self.old.path.items self.old.least }
        requires last { (b : ℕ) → IsIn self.old.bounds.items b → b ≤ place }
        requires edge { (n : ℕ) × (slice_get self.old.members.items place ≡ Some n) × Leads graph.now source n }
        ensures split { OnOk result (IsSplit graph.now end self.new.stages.items self.new.members.items self.new.bounds.items self.new.path.items self.new.least) }
        ensures settled { OnOk result ((n : ℕ) → slice_get self.old.members.items place ≡ Some n → (slice_get self.new.members.items place ≡ Some n) × IsSettled self.new.stages.items self.new.bounds.items self.new.least place n source) }
        ensures path { OnOk result (KeepsPath self.old.path.items self.new.path.items) }
        ensures less { OnOk result (work graph.now self.new.stages.items self.new.path.items ≤ work graph.now self.old.stages.items self.old.path.items) }
        ensures seen { OnOk result (KeepsSeen self.old.stages.items self.new.stages.items) }
    {
        match self.stages[source as usize] {
            Stage::New => {
                self.open(graph, source)?;
                Ok(())
            }
            Stage::Open(at) => {
                self.least = note_own(self.least, self.members[place], source);
                join(&mut self.bounds, at);
                Ok(())
            }
            Stage::Done => Ok(()),
        }
    }

    // Is done with the open nodes from this place on, which lead to themselves if they are many.
    fn close(&mut self, bound: usize)
        requires within { bound < length self.old.members.items }
        requires nodes { (i n : ℕ) → slice_get self.old.members.items i ≡ Some n → n < length self.old.stages.items }
        ensures members { self.new.members.items ≡ take bound self.old.members.items }
        ensures bounds { self.new.bounds.items ≡ self.old.bounds.items }
        ensures path { self.new.path.items ≡ self.old.path.items }
        ensures done { AreDone (drop bound self.old.members.items) self.old.stages.items self.new.stages.items }
        ensures many { bound + 1 < length self.old.members.items → AreNoted (drop bound self.old.members.items) self.old.least self.new.least }
        ensures one { length self.old.members.items ≤ bound + 1 → self.new.least ≡ self.old.least }
    {
        if bound + 1 < self.members.len() {
            self.least = note_all(self.least, &self.members[bound..]);
        }
        finish(&mut self.stages, &self.members[bound..]);
        self.members.truncate(bound);
    }

    // Is done with the last node of the path, from which no edge is left. It had this place.
    fn leave(&mut self, graph: &Graph, place: usize)
        ghost end: { ℕ }
        requires split { IsSplit graph.now end self.old.stages.items self.old.members.items self.old.bounds.items self.old.path.items self.old.least }
        requires over { IsOver graph.now self.old.members.items self.old.path.items place }
        ensures split { IsSplit graph.now end self.new.stages.items self.new.members.items self.new.bounds.items self.new.path.items self.new.least }
        ensures less { work graph.now self.new.stages.items self.new.path.items < work graph.now self.old.stages.items self.old.path.items }
        ensures seen { KeepsSeen self.old.stages.items self.new.stages.items }
    {
        let _ = self.path.pop();
        let last = self.bounds.len() - 1;
        if self.bounds[last] == place {
            let _ = self.bounds.pop();
            self.close(place);
        }
    }

    // Follows the next edge to the last node of the path, or is done with that node.
    fn turn(&mut self, graph: &Graph) -> Result<(), NoMemory>
        ghost end: { ℕ }
        requires split { IsSplit graph.now end self.old.stages.items self.old.members.items self.old.bounds.items self.old.path.items self.old.least }
        requires some { 0 < length self.old.path.items }
        ensures split { OnOk result (IsSplit graph.now end self.new.stages.items self.new.members.items self.new.bounds.items self.new.path.items self.new.least) }
        ensures less { OnOk result (work graph.now self.new.stages.items self.new.path.items < work graph.now self.old.stages.items self.old.path.items) }
        ensures seen { OnOk result (KeepsSeen self.old.stages.items self.new.stages.items) }
    {
        let last = self.path.len() - 1;
        let branch = self.path[last];
        let step = Step {
            node: self.members[branch.place],
            next: branch.next,
        };
        match source_at(graph, step) {
            None => {
                self.leave(graph, branch.place);
                Ok(())
            }
            Some(source) => {
                self.settle(graph, branch.place, source)?;
                self.path[last].next += 1;
                Ok(())
            }
        }
    }

    // Follows edges until the path is empty.
    pub fn run(&mut self, graph: &Graph) -> Result<(), NoMemory>
        ghost end: { ℕ }
        requires { IsSplit graph.now end self.old.stages.items self.old.members.items self.old.bounds.items self.old.path.items self.old.least }
        ensures split { OnOk result (IsSplit graph.now end self.new.stages.items self.new.members.items self.new.bounds.items [] self.new.least) }
        ensures seen { OnOk result (KeepsSeen self.old.stages.items self.new.stages.items) }
    {
        while !self.path.is_empty() {
            self.turn(graph)?;
        }
        Ok(())
    }
}
