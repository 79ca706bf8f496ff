ghost use Rattle.std.specs.Prelude.{◌≡◌, ℕ, ◌+◌, ◌<◌, ◌≤◌, ◌↔◌, IsTrue, MatchOption, length, slice_get, slice_index, Some};
ghost use Rattle.net_graph.specs.Rows.{AreRows};

/// A directed graph. Its nodes have the numbers from 0. For each node there is a row of the nodes
/// that lead to it, with one item for each edge. The rows stand one after another in `sources`: that
/// of node `n` from `starts[n]` on and before `starts[n + 1]`, so that `starts` has one item more
/// than there are nodes.
#[derive(Drop)]
pub struct Graph {
    pub starts: Vec<usize>,
    pub sources: Vec<u32>,
    pub ghost rows: { AreRows starts.items sources.items },
}

/// What is known of the order of a graph's nodes.
#[derive(Drop)]
pub enum Order {
    /// For each node a number, such that each edge goes from a lower to a higher one.
    Ranked(Vec<u32>),
    /// Distinct nodes, each of which leads to the next and the last to the first, from the least on.
    Cycle(Vec<u32>),
}

impl Graph {
    /// The graph with these rows, or `None` where they are not rows of a graph's nodes. It takes time
    /// linear in the nodes and edges.
    pub fn from_rows(starts: Vec<usize>, sources: Vec<u32>) -> Option<Graph>
        ensures { MatchOption result (¬ AreRows starts.items sources.items) (λ graph. (graph.starts ≡ starts) × (graph.sources ≡ sources)) }
    {
        let few = 0 < starts.len() && starts.len() <= 1 << 32;
        if few
            && is_rising(starts.as_slice())
            && are_within(starts.as_slice(), sources.len())
            && are_nodes(sources.as_slice(), starts.len())
        {
            Some(Graph { starts, sources })
        } else {
            None
        }
    }
}

// Whether no start is above the next.
fn is_rising(starts: &[usize]) -> bool
    requires { 0 < length starts.now }
    ensures { IsTrue result ↔ ((n : ℕ) → n + 1 < length starts.now → slice_index starts.now n ≤ slice_index starts.now (n + 1)) }
{
    for i in 0..starts.len() - 1 {
        if starts[i + 1] < starts[i] {
            return false;
        }
    }
    true
}

// Whether no start is above the bound.
fn are_within(starts: &[usize], bound: usize) -> bool
    ensures { IsTrue result ↔ ((n : ℕ) → n < length starts.now → slice_index starts.now n ≤ bound) }
{
    for start in starts {
        if bound < *start {
            return false;
        }
    }
    true
}

// Whether each source is a node, of which there is one less than starts.
fn are_nodes(sources: &[u32], starts: usize) -> bool
    ensures { IsTrue result ↔ ((place m : ℕ) → slice_get sources.now place ≡ Some m → m + 1 < starts) }
{
    for source in sources {
        if starts <= *source as usize + 1 {
            return false;
        }
    }
    true
}
