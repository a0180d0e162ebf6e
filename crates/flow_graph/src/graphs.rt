ghost use Rattle.std.specs.List.{list_any, IsDistinct};
ghost use Rattle.std.specs.Prelude.{slice_set, None, OnOk, ◌≡◌, ◌↔◌, ◌∷◌, ◌++◌, false, IsTrue, ℕ, ◌^◌, ◌<◌, ◌≤ℤ◌, ℤ, pos, neg_ℤ, Some, [], length, slice_get, IsPermutation, IsOkUnless, IfOk, OnErr, IsSomeAnd, MatchOption, position};
ghost use Rattle.std.specs.Option.{option_map};
ghost use Rattle.flow_graph.specs.Network.{AreBounds, IsArcAmong, IsNetwork, arcs_touching};
ghost use Rattle.flow_graph.specs.Updates.{with_arc, node_fault, arc_fault, with_node, SetsBounds, AddsArc};

use crate::arcs::{Arc, ArcId, Arcs, Links, NodeId};
use crate::names::Name;
use indexmap::IndexSet;
use std::alloc::Global;
use std::marker::Model;

/// Why a node or an arc was not added. The first that applies is given, and the graph is as before.
#[derive(Clone, Copy, Debug, PartialEq, Eq)]
pub enum GraphFault {
    /// The name is there already.
    Duplicate,
    /// An end of the arc is not there.
    UnknownNode,
    /// The lower bound is above the upper bound.
    Crossed,
    /// There are 262,144 nodes, or 524,288 arcs.
    Full,
    /// No memory is left.
    NoMemory,
}

/// Adds a name that is not there.
fn push_name<X: Name>(names: &mut IndexSet<X>, name: X) -> bool
    requires { list_any (X.eq name) names.old.keys ≡ false }
    ensures added { IsTrue result → names.new.keys ≡ names.old.keys ++ name ∷ [] }
    ensures failed { result ≡ false → names.new.keys ≡ names.old.keys }
    ensures unique { IsDistinct X.eq names.new.keys }
{
    names.insert_full(name).is_ok()
}

/// Adds a node's name that is not there, and an empty list of arcs: both or none.
fn push_node<X: Name>(names: &mut IndexSet<X>, starts: &mut Vec<Option<ArcId>>, name: X) -> bool
    requires { list_any (X.eq name) names.old.keys ≡ false }
    ensures named { IsTrue result → names.new.keys ≡ names.old.keys ++ name ∷ [] }
    ensures started { IsTrue result → starts.new.items ≡ starts.old.items ++ None ∷ [] }
    ensures names_stay { result ≡ false → names.new.keys ≡ names.old.keys }
    ensures starts_stay { result ≡ false → starts.new.items ≡ starts.old.items }
    ensures unique { IsTrue result → IsDistinct X.eq names.new.keys }
{
    if starts.push(None).is_err() {
        return false;
    }
    if push_name(names, name) {
        return true;
    }
    let _ = starts.pop();
    false
}

/// Adds an arc and its links: both or none.
fn push_linked(arcs: &mut Vec<Arc>, links: &mut Vec<Links>, arc: Arc, link: Links) -> bool
    ensures added { IsTrue result → arcs.new.items ≡ arcs.old.items ++ arc ∷ [] }
    ensures linked { IsTrue result → links.new.items ≡ links.old.items ++ link ∷ [] }
    ensures arcs_stay { result ≡ false → arcs.new.items ≡ arcs.old.items }
    ensures links_stay { result ≡ false → links.new.items ≡ links.old.items }
{
    if arcs.push(arc).is_err() {
        return false;
    }
    if links.push(link).is_ok() {
        return true;
    }
    let _ = arcs.pop();
    false
}

/// How many nodes a graph may have.
const NODE_LIMIT: usize = 262_144;

/// How many arcs a graph may have.
const ARC_LIMIT: usize = 524_288;

/// Nodes and arcs by name, in the order of adding: up to 262,144 nodes, and up to 524,288 arcs with two bounds up to 2^60
/// away from 0. Each node has a list of the arcs that leave or enter it, linked through the arcs.
pub struct Graph<N: Name, A: Name> {
    nodes: IndexSet<N>,
    names: IndexSet<A>,
    arcs: Vec<Arc>,
    starts: Vec<Option<ArcId>>,
    links: Vec<Links>,
}

impl<N: Name, A: Name> Drop for Graph<N, A> {
    fn drop(self) {
        let Graph {
            nodes,
            names,
            arcs,
            starts,
            links,
        } = self;
        drop(nodes);
        drop(names);
        drop(arcs);
        drop(starts);
        drop(links);
    }
}

impl<N: Name, A: Name> Model for Graph<N, A> {
    ghost use Rattle.flow_graph.specs.Network.{Network};
    ghost use Rattle.flow_graph.specs.Incidence.{IsStored};

    ghost Value = { Network N A };

    ghost view = { λ g. record { nodes = g.nodes.keys; names = g.names.keys; arcs = g.arcs.items } };

    ghost invariant = { λ g. IsStored N.eq A.eq (record { nodes = g.nodes.keys; names = g.names.keys; arcs = g.arcs.items })
        g.starts.items g.links.items };
}

impl<N: Name, A: Name> Graph<N, A> {
    /// No nodes and no arcs. It takes no memory.
    pub fn new(alloc: Global) -> Graph<N, A>
        ensures { result ≡ record { nodes = []; names = []; arcs = [] } }
    {
        Graph {
            nodes: IndexSet::new(alloc),
            names: IndexSet::new(alloc),
            arcs: Vec::new(alloc),
            starts: Vec::new(alloc),
            links: Vec::new(alloc),
        }
    }

    /// Adds a node last. `Duplicate` where the name is there, else `Full` where there are 262,144 nodes, else `NoMemory`
    /// where no memory is left.
    pub fn add_node(&mut self, name: N) -> Result<NodeId, GraphFault>
        ensures fault { MatchOption (node_fault N.eq self.old name)
            (IsOkUnless result GraphFault.NoMemory)
            (λ fault. result ≡ Err fault) }
        ensures id { IfOk result (λ id. id.0 ≡ length self.old.nodes) }
        ensures added { IfOk result (λ _. self.new ≡ with_node self.old name) }
        ensures err { OnErr result (self.new ≡ self.old) }
    {
        if self.nodes.contains(&name) {
            return Err(GraphFault::Duplicate);
        }
        if self.nodes.len() >= NODE_LIMIT {
            return Err(GraphFault::Full);
        }
        let place = self.nodes.len();
        if !push_node(&mut self.nodes, &mut self.starts, name) {
            return Err(GraphFault::NoMemory);
        }
        Ok(NodeId(place as u32))
    }

    /// Adds an arc last, from one node to another or the same one, with bounds up to 2^60 away from 0. `Duplicate` where
    /// the name is there, else `UnknownNode` where an end is not there, else `Crossed` where `lo` is above `hi`, else
    /// `Full` where there are 524,288 arcs, else `NoMemory` where no memory is left.
    pub fn add_arc(
        &mut self,
        name: A,
        from: N,
        to: N,
        lo: i64,
        hi: i64,
    ) -> Result<ArcId, GraphFault>
        requires low { neg_ℤ (pos (2 ^ 60)) ≤ℤ lo }
        requires high { hi ≤ℤ pos (2 ^ 60) }
        ensures fault { MatchOption (arc_fault N.eq A.eq self.old name from to lo hi)
            (IsOkUnless result GraphFault.NoMemory)
            (λ fault. result ≡ Err fault) }
        ensures id { IfOk result (λ id. id.0 ≡ length self.old.arcs) }
        ensures added { IfOk result (λ _. AddsArc N.eq self.old self.new name from to lo hi) }
        ensures err { OnErr result (self.new ≡ self.old) }
    {
        if self.names.contains(&name) {
            return Err(GraphFault::Duplicate);
        }
        let (Some(tail), Some(head)) = (
            self.nodes.get_index_of(&from),
            self.nodes.get_index_of(&to),
        ) else {
            return Err(GraphFault::UnknownNode);
        };
        if lo > hi {
            return Err(GraphFault::Crossed);
        }
        if self.arcs.len() >= ARC_LIMIT {
            return Err(GraphFault::Full);
        }
        let arc = Arc {
            tail: tail as u32,
            head: head as u32,
            lo,
            hi,
        };
        self.append(name, arc)
    }

    /// Adds an arc last, which is the first one in the lists of both its ends then.
    fn append(&mut self, name: A, arc: Arc) -> Result<ArcId, GraphFault>
        requires absent { list_any (A.eq name) self.old.names ≡ false }
        requires room { length self.old.arcs < 524_288 }
        requires among { IsArcAmong (length self.old.nodes) arc }
        ensures fault { IsOkUnless result GraphFault.NoMemory }
        ensures id { IfOk result (λ id. id.0 ≡ length self.old.arcs) }
        ensures added { OnOk result (self.new ≡ with_arc self.old name arc) }
        ensures err { OnErr result (self.new ≡ self.old) }
    {
        let (tail, head) = (arc.tail as usize, arc.head as usize);
        let link = Links {
            tail: self.starts[tail],
            head: self.starts[head],
        };
        let id = ArcId(self.arcs.len() as u32);
        if !push_linked(&mut self.arcs, &mut self.links, arc, link) {
            return Err(GraphFault::NoMemory);
        }
        if !push_name(&mut self.names, name) {
            let _ = self.arcs.pop();
            let _ = self.links.pop();
            return Err(GraphFault::NoMemory);
        }
        self.starts[tail] = Some(id);
        self.starts[head] = Some(id);
        Ok(id)
    }

    /// The place of a node. `None` where the name is not there.
    pub fn node(&self, name: N) -> Option<NodeId>
        ensures { option_map (λ id. id.0) result ≡ position (N.eq name) self.now.nodes }
    {
        Some(NodeId(self.nodes.get_index_of(&name)? as u32))
    }

    /// The place of an arc. `None` where the name is not there.
    pub fn arc(&self, name: A) -> Option<ArcId>
        ensures { option_map (λ id. id.0) result ≡ position (A.eq name) self.now.names }
    {
        Some(ArcId(self.names.get_index_of(&name)? as u32))
    }

    /// The arcs that leave or enter a node, each once, also one from the node to itself. It looks at these arcs alone.
    pub fn arcs_at(&self, n: NodeId) -> Arcs<'_>
        requires { n.0 < length self.now.nodes }
        ensures { IsPermutation (arcs_touching n.0 0 self.now.arcs) result }
    {
        Arcs::from(&self.arcs, &self.links, n.0, self.starts[n.0 as usize])
    }

    /// How many nodes there are.
    pub fn node_count(&self) -> u32
        ensures count { result ≡ length self.now.nodes }
        ensures network { IsNetwork N.eq A.eq self.now }
    {
        self.nodes.len() as u32
    }

    /// How many arcs there are.
    pub fn arc_count(&self) -> u32
        ensures count { result ≡ length self.now.arcs }
        ensures network { IsNetwork N.eq A.eq self.now }
    {
        self.arcs.len() as u32
    }

    /// The name of a node.
    pub fn node_name(&self, n: NodeId) -> N
        requires { n.0 < length self.now.nodes }
        ensures { slice_get self.now.nodes n.0 ≡ Some result }
    {
        *self.nodes.get_index(n.0 as usize).unwrap()
    }

    /// The name of an arc.
    pub fn arc_name(&self, a: ArcId) -> A
        requires { a.0 < length self.now.names }
        ensures { slice_get self.now.names a.0 ≡ Some result }
    {
        *self.names.get_index(a.0 as usize).unwrap()
    }

    /// The node that an arc leaves, and the node that it enters.
    pub fn ends(&self, a: ArcId) -> (NodeId, NodeId)
        requires { a.0 < length self.now.arcs }
        ensures ends { IsSomeAnd (slice_get self.now.arcs a.0) (λ arc. (result.0.0 ≡ arc.tail) × (result.1.0 ≡ arc.head)) }
        ensures there { (result.0.0 < length self.now.nodes) × (result.1.0 < length self.now.nodes) }
    {
        let arc = self.arcs[a.0 as usize];
        (NodeId(arc.tail), NodeId(arc.head))
    }

    /// The lower and the upper bound of an arc.
    pub fn bounds(&self, a: ArcId) -> (i64, i64)
        requires { a.0 < length self.now.arcs }
        ensures value { IsSomeAnd (slice_get self.now.arcs a.0) (λ arc. (result.0 ≡ arc.lo) × (result.1 ≡ arc.hi)) }
        ensures bounds { AreBounds result.0 result.1 }
    {
        let arc = self.arcs[a.0 as usize];
        (arc.lo, arc.hi)
    }

    /// Changes the bounds of an arc to others up to 2^60 away from 0. All else stays.
    pub fn set_bounds(&mut self, a: ArcId, lo: i64, hi: i64)
        requires there { a.0 < length self.old.arcs }
        requires bounds { AreBounds lo hi }
        ensures { SetsBounds self.old self.new a.0 lo hi }
    {
        let arc = &mut self.arcs[a.0 as usize];
        arc.lo = lo;
        arc.hi = hi;
    }
}
