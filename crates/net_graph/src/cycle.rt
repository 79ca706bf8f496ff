ghost use Rattle.std.specs.Prelude.{◌≡◌, ℕ, ◌+◌, ◌<◌, ◌≤◌, IfOk, map, reverse, length, slice_get, slice_index, Some};
ghost use Rattle.net_graph.specs.Search.{IsLoopAt};
ghost use Rattle.net_graph.specs.declared.search.Step.{Step as StepOf};

use crate::search::Step;
use ila_base::NoMemory;
use std::alloc::Global;

// The place of the step of a node.
fn place_of(path: &[Step], node: u32) -> usize
    requires { (i : ℕ) × (s : StepOf) × (slice_get path.now i ≡ Some s) × (s.node ≡ node) }
    ensures { (s : StepOf) × (slice_get path.now result ≡ Some s) × (s.node ≡ node) }
{
    for (i, step) in path.iter().enumerate() {
        if step.node == node {
            return i;
        }
    }
    unreachable!()
}

// The nodes of the steps, the last first.
fn nodes_back(alloc: Global, path: &[Step]) -> Result<Vec<u32>, NoMemory>
    ensures { IfOk result (λ nodes. nodes.items ≡ map (λ (s : StepOf). s.node) (reverse path.now)) }
{
    Ok(path.iter().rev().map(|step| step.node).collect(alloc)?)
}

// The place of the least node.
fn place_of_least(nodes: &[u32]) -> usize
    requires { 0 < length nodes.now }
    ensures { (result < length nodes.now) × ((i : ℕ) → i < length nodes.now → slice_index nodes.now result ≤ slice_index nodes.now i) }
{
    let mut least = 0;
    for i in 1..nodes.len() {
        if nodes[i] < nodes[least] {
            least = i;
        }
    }
    least
}

// The nodes of the path from this one on, the last first, turned so that the least is in front.
pub fn loop_at(alloc: Global, path: &[Step], node: u32) -> Result<Vec<u32>, NoMemory>
    requires { (i : ℕ) × (s : StepOf) × (slice_get path.now i ≡ Some s) × (s.node ≡ node) }
    ensures { IfOk result (λ nodes. IsLoopAt path.now node nodes.items) }
{
    let place = place_of(path, node);
    let mut nodes = nodes_back(alloc, &path[place..])?;
    let least = place_of_least(nodes.as_slice());
    nodes.as_mut_slice().rotate_left(least);
    Ok(nodes)
}
