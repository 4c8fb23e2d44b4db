//! A graph as one table of edges, with a stretch of it per node.

ghost use Rattle.std.specs.Prelude.{◌≡◌, ◌<◌, ◌≤◌, ◌++◌, ◌∷◌, ◌^◌, IfOk, OnOk, All, List, ℕ, [], length, replicate, sum, sum_by, slice_index, slice_index_or};
ghost use Rattle.wl_reach.specs.Graph.{HasEdges, AreSums, HasRoom, graph_of, with_edge, with_room};
ghost use Rattle.wl_reach.specs.declared.graph.Edge.{Edge as SpecEdge};

use std::alloc::{AllocError, Global};
use std::marker::Model;

/// An edge of a graph, whose nodes are numbers from 0.
#[derive(Clone, Copy, PartialEq, Eq)]
pub struct Edge {
    pub from: usize,
    pub to: usize,
}

// ---- how much room each node needs

/// For how many edges from each node there is to be room in a graph that is laid later. Clauses see
/// it as the list of these numbers.
#[derive(Drop)]
pub struct Rooms {
    counts: Vec<usize>,
    total: usize,
}

impl Model for Rooms {
    ghost use Rattle.std.specs.Prelude.{◌≡◌, ◌<◌, ◌^◌, List, ℕ, sum};

    ghost Value = { List ℕ };

    ghost view = { λ r. r.counts.items };

    ghost invariant = { λ r. (r.total ≡ sum r.counts.items) × (r.total < 2 ^ 64) };
}

/// Where each of so many stretches begins, which stand one after the other.
fn sums_before(alloc: Global, counts: &[usize]) -> Result<Vec<usize>, AllocError>
    requires { sum counts.now < 2 ^ 64 }
    ensures { IfOk result (λ v. AreSums counts.now (length counts.now) v.items) }
{
    let mut sums: Vec<usize> = Vec::new(alloc);
    let mut sum = 0;
    for count in counts {
        sums.push(sum)?;
        sum += *count;
    }
    Ok(sums)
}

impl Rooms {
    /// No room at any of so many nodes.
    pub fn new(alloc: Global, nodes: usize) -> Result<Self, AllocError>
        ensures { IfOk result (λ r. r ≡ replicate nodes 0) }
    {
        let counts = vec![in alloc; 0; nodes]?;
        Ok(Rooms { counts, total: 0 })
    }

    /// Room for so many edges more from a node. No memory has room for more than a number can
    /// count.
    pub fn add(&mut self, node: usize, edges: usize) -> Result<(), AllocError>
        requires { node < length self.old }
        ensures room { OnOk result (self.new ≡ with_room self.old node edges) }
        ensures has { OnOk result ((old more : List SpecEdge) → HasRoom self.old old
            → All (λ e. e.from ≡ node) more → length more ≤ edges
            → HasRoom self.new (old ++ more)) }
    {
        self.total = self.total.checked_add(edges).ok_or(AllocError)?;
        self.counts[node] += edges;
        Ok(())
    }

    /// For how many edges there is to be room in all.
    fn total(&self) -> usize
        ensures { result ≡ sum self.now }
    {
        self.total
    }

    /// Where the stretch of each node begins.
    fn starts(&self, alloc: Global) -> Result<Vec<usize>, AllocError>
        ensures { IfOk result (λ v. AreSums self.now (length self.now) v.items) }
    {
        sums_before(alloc, &self.counts)
    }
}

// ---- graphs

/// A graph: all edges in one table, those from one node side by side. Clauses see it as the list of
/// the nodes to which edges lead from each node.
#[derive(Drop)]
pub struct Graph {
    starts: Vec<usize>,
    ends: Vec<usize>,
    targets: Vec<usize>,
}

impl Model for Graph {
    ghost use Rattle.std.specs.Prelude.{List, ℕ};

    ghost Value = { List (List ℕ) };

    ghost use Rattle.wl_reach.specs.Graph.{stretches, IsLaid};

    ghost view = { λ g. stretches g.starts.items g.ends.items g.targets.items };

    ghost invariant = { λ g. IsLaid g.starts.items g.ends.items g.targets.items };
}

/// A graph whose edges are laid one by one, each straight to its place in the table. Clauses see it
/// as the graph of the edges that are laid, and for how many from each node there is room in all.
#[derive(Drop)]
pub struct GraphBuilder {
    rooms: Rooms,
    starts: Vec<usize>,
    ends: Vec<usize>,
    targets: Vec<usize>,
}

impl Model for GraphBuilder {
    ghost use Rattle.wl_reach.specs.Graph.{Building, stretches, IsBuilding};

    ghost Value = { Building };

    ghost view = { λ b. record {
      graph = stretches b.starts.items b.ends.items b.targets.items;
      rooms = b.rooms;
    } };

    ghost invariant = { λ b. IsBuilding b.rooms b.starts.items b.ends.items b.targets.items };
}

impl GraphBuilder {
    /// A graph with no edges yet, and with that room at each node.
    pub fn new(alloc: Global, rooms: Rooms) -> Result<Self, AllocError>
        ensures graph { IfOk result (λ b. b.graph ≡ graph_of (length rooms) []) }
        ensures rooms { IfOk result (λ b. b.rooms ≡ rooms) }
    {
        let starts = rooms.starts(alloc)?;
        let ends = Vec::from_slice(alloc, &starts)?;
        let targets = vec![in alloc; 0; rooms.total()]?;
        Ok(GraphBuilder {
            rooms,
            starts,
            ends,
            targets,
        })
    }

    /// Puts an edge after those from its node.
    pub fn add(&mut self, edge: Edge)
        requires from { edge.from < length self.old.graph }
        requires to { edge.to < length self.old.graph }
        requires room { length (slice_index_or self.old.graph edge.from [])
            < slice_index self.old.rooms edge.from }
        ensures graph { self.new.graph ≡ with_edge self.old.graph edge }
        ensures rooms { self.new.rooms ≡ self.old.rooms }
        ensures laid { (nodes : ℕ) (edges : List SpecEdge) → self.old.graph ≡ graph_of nodes edges
            → self.new.graph ≡ graph_of nodes (edges ++ edge ∷ []) }
    {
        let place = self.ends[edge.from];
        self.targets[place] = edge.to;
        self.ends[edge.from] = place + 1;
    }

    /// The graph of the edges that are laid.
    pub fn finish(self) -> Graph
        ensures { result ≡ self.graph }
    {
        let GraphBuilder {
            rooms: _,
            starts,
            ends,
            targets,
        } = self;
        Graph {
            starts,
            ends,
            targets,
        }
    }
}

/// Room for these edges.
fn rooms_for(alloc: Global, nodes: usize, edges: &[Edge]) -> Result<Rooms, AllocError>
    requires { All (λ e. e.from < nodes) edges.now }
    ensures nodes { IfOk result (λ r. length r ≡ nodes) }
    ensures room { IfOk result (λ r. HasRoom r edges.now) }
{
    let mut rooms = Rooms::new(alloc, nodes)?;
    for edge in edges {
        rooms.add(edge.from, 1)?;
    }
    Ok(rooms)
}

/// The graph of these edges, for which there is room.
fn build(alloc: Global, rooms: Rooms, edges: &[Edge]) -> Result<Graph, AllocError>
    requires from { All (λ e. e.from < length rooms) edges.now }
    requires to { All (λ e. e.to < length rooms) edges.now }
    requires room { HasRoom rooms edges.now }
    ensures { IfOk result (λ g. g ≡ graph_of (length rooms) edges.now) }
{
    let mut builder = GraphBuilder::new(alloc, rooms)?;
    for edge in edges {
        builder.add(*edge);
    }
    Ok(builder.finish())
}

impl Graph {
    /// The graph of these edges: for each node where its edges lead, in their order and repeats
    /// kept.
    pub fn new(alloc: Global, nodes: usize, edges: &[Edge]) -> Result<Self, AllocError>
        requires from { All (λ e. e.from < nodes) edges.now }
        requires to { All (λ e. e.to < nodes) edges.now }
        ensures nodes { IfOk result (λ g. length g ≡ nodes) }
        ensures edges { IfOk result (HasEdges edges.now) }
        ensures count { IfOk result (λ g. sum_by length g ≡ length edges.now) }
        ensures laid { IfOk result (λ g. g ≡ graph_of nodes edges.now) }
    {
        let rooms = rooms_for(alloc, nodes, edges)?;
        build(alloc, rooms, edges)
    }

    /// How many nodes there are.
    pub fn len(&self) -> usize
        ensures { result ≡ length self.now }
    {
        self.starts.len()
    }

    /// The nodes to which edges lead from a node.
    pub fn successors(&self, node: usize) -> &[usize]
        requires { node < length self.now }
        ensures are { result.now ≡ slice_index_or self.now node [] }
        ensures nodes { All (λ t. t < length self.now) result.now }
    {
        let start = self.starts[node];
        let end = self.ends[node];
        let rest = self.targets.as_slice().split_at(start).1;
        rest.split_at(end - start).0
    }
}
