ghost use Rattle.std.specs.Prelude.{◌≡◌, ℕ, ◌+◌, ◌*◌, ◌^◌, ◌<◌, ◌≤◌, ◌==◌, if◌then◌else◌, List, ℤ, pos, neg_ℤ, ◌+ℤ◌, ◌-ℤ◌, ◌≤ℤ◌, Some, length, map, replicate, slice_get, slice_set, slice_index_or, All, IfOk, IsSomeAnd};
ghost use Rattle.flow_cost.specs.Cost.{IsWithin};
ghost use Rattle.flow_graph.specs.Condition.{FitSpans, ArePotentials};
ghost use Rattle.flow_graph.specs.Updates.{SetsBounds};
ghost use Rattle.flow_graph.specs.Circulation.{IsFlow};
ghost use Rattle.flow_residual.specs.Flows.{IsFlowOf, IsStep, MeetsAll, SettlesTo, excess_of, nearest_within, only_at};
ghost use Rattle.flow_residual.specs.Path.{Move, IsTight, after_moves};
ghost use Rattle.flow_residual.specs.Rooms.{IsRoomFor, HoldsPath, ChangesHeapAlone, KeepsShown};

use crate::carrying::{
    carry, excesses_of, find_excesses, first_flows, gap, moved, nearest, signed,
};
use crate::counter::Steps;
use crate::gaps::{close, number_nodes, sort_nodes};
use crate::rooms::{Room, filled};
use crate::settling::settle_flows;
use flow_cost::Cost;
use flow_graph::{ArcId, Graph, Name, NodeId};
use no_memory::NoMemory;
use std::alloc::Global;
use std::marker::Model;
use std::sync::ledger::Ledger;

/// A graph with a cost and a flow on each arc, and a potential at each node.
pub struct State<N: Name, A: Name, C: Cost> {
    graph: Graph<N, A>,
    costs: Vec<C>,
    flows: Vec<i64>,
    excesses: Vec<i128>,
    potentials: Vec<i128>,
}

impl<N: Name, A: Name, C: Cost> Drop for State<N, A, C> {
    fn drop(self) {
        let State {
            graph,
            costs,
            flows,
            excesses,
            potentials,
        } = self;
        drop(graph);
        drop(costs);
        drop(flows);
        drop(excesses);
        drop(potentials);
    }
}

impl<N: Name, A: Name, C: Cost> Model for State<N, A, C> {
    ghost use Rattle.std.specs.Prelude.{◌≡◌, ℕ, ◌<◌, ℤ, pos, Some, length, slice_get, slice_index_or, vec_len};
    ghost use Rattle.flow_residual.specs.Flows.{Flow, IsFlowOf, IsKept};

    ghost Value = { Flow N A C };

    ghost view = { λ s. record { graph = s.graph; costs = s.costs.items; flows = s.flows.items; potentials = s.potentials.items } };

    ghost invariant = { λ s. IsKept N.eq A.eq C.span_of (record { graph = s.graph; costs = s.costs.items; flows = s.flows.items; potentials = s.potentials.items }) s.excesses.items };
}

impl<N: Name, A: Name, C: Cost> State<N, A, C> {
    /// Flows as near to 0 as the bounds let them be, and potentials of 0.
    pub fn new(alloc: Global, g: Graph<N, A>, costs: Vec<C>) -> Result<State<N, A, C>, NoMemory>
        requires { FitSpans C.span_of g.arcs costs.items }
        ensures graph { IfOk result (λ s. s.graph ≡ g) }
        ensures costs { IfOk result (λ s. s.costs ≡ costs.items) }
        ensures flows { IfOk result (λ s. s.flows ≡ map (λ arc. nearest_within arc.lo arc.hi (pos 0)) g.arcs) }
        ensures potentials { IfOk result (λ s. s.potentials ≡ replicate (length g.nodes) (pos 0)) }
    {
        let nodes = g.node_count() as usize;
        let flows = first_flows(alloc, &g)?;
        let excesses = excesses_of(alloc, &g, &flows)?;
        let potentials = filled(alloc, nodes, 0)?;
        Ok(State {
            graph: g,
            costs,
            flows,
            excesses,
            potentials,
        })
    }

    /// Gives an arc another cost and other bounds, and moves its flow to the nearest number within them.
    pub fn set_arc(&mut self, arc: ArcId, cost: C, lo: i64, hi: i64)
        requires there { arc.0 < length self.old.graph.arcs }
        requires ordered { lo ≤ℤ hi }
        requires low { IsWithin (C.span_of cost) lo }
        requires high { IsWithin (C.span_of cost) hi }
        ensures graph { SetsBounds self.old.graph self.new.graph arc.0 lo hi }
        ensures costs { self.new.costs ≡ slice_set self.old.costs arc.0 cost }
        ensures flows { self.new.flows ≡ slice_set self.old.flows arc.0 (nearest_within lo hi (slice_index_or self.old.flows arc.0 (pos 0))) }
        ensures potentials { self.new.potentials ≡ self.old.potentials }
    {
        let before = self.flows[arc.0 as usize];
        let after = nearest(lo, hi, before);
        let (tail, head) = self.graph.ends(arc);
        carry(&mut self.excesses, tail, head, gap(before, after));
        self.flows[arc.0 as usize] = after;
        self.costs[arc.0 as usize] = cost;
        self.graph.set_bounds(arc, lo, hi);
    }

    /// Moves the flow of an arc to the number within its bounds that is nearest to this one.
    pub fn set_flow(&mut self, arc: ArcId, x: i64)
        requires { arc.0 < length self.old.graph.arcs }
        ensures { IsSomeAnd (slice_get self.old.graph.arcs arc.0) (λ a. self.new ≡ record self.old { flows = slice_set self.old.flows arc.0 (nearest_within a.lo a.hi x) }) }
    {
        let before = self.flows[arc.0 as usize];
        let (lo, hi) = self.graph.bounds(arc);
        let after = nearest(lo, hi, x);
        let (tail, head) = self.graph.ends(arc);
        carry(&mut self.excesses, tail, head, gap(before, after));
        self.flows[arc.0 as usize] = after;
    }

    /// Gives a node another potential.
    pub fn set_potential(&mut self, n: NodeId, p: i128)
        requires there { n.0 < length self.old.graph.nodes }
        requires in_range { IsWithin (pos (10 ^ 24)) p }
        ensures { self.new ≡ record self.old { potentials = slice_set self.old.potentials n.0 p } }
    {
        self.potentials[n.0 as usize] = p;
    }

    /// Settles each flow at the step, under its arc's rise.
    pub fn settle_all(&mut self, step: i64)
        requires { IsStep step }
        ensures settled { SettlesTo C.value_at step self.old self.new.flows }
        ensures rest { self.new ≡ record self.old { flows = self.new.flows } }
        ensures condition { MeetsAll C.value_at step self.new }
    {
        settle_flows(
            &self.graph,
            &self.costs,
            &self.potentials,
            &mut self.flows,
            step,
        );
        find_excesses(&self.graph, &self.flows, &mut self.excesses);
    }

    /// Moves the step along an arc, toward a node, and gives the node at the arc's other end.
    fn push_arc(&mut self, a: ArcId, to: NodeId, step: i64) -> NodeId
        requires step { IsStep step }
        requires there { a.0 < length self.old.graph.arcs }
        requires room { IsSomeAnd (slice_get self.old.graph.arcs a.0) (λ arc. IsFlow arc (slice_index_or self.old.flows a.0 (pos 0) +ℤ (if arc.head == to.0 then step else neg_ℤ step))) }
        ensures flows { IsSomeAnd (slice_get self.old.graph.arcs a.0) (λ arc. self.new ≡ record self.old { flows = slice_set self.old.flows a.0 (slice_index_or self.old.flows a.0 (pos 0) +ℤ (if arc.head == to.0 then step else neg_ℤ step)) }) }
        ensures from { IsSomeAnd (slice_get self.old.graph.arcs a.0) (λ arc. result.0 ≡ (if arc.head == to.0 then arc.tail else arc.head)) }
    {
        let (tail, head) = self.graph.ends(a);
        let up = head.0 == to.0;
        let by = signed(step, up);
        let x = moved(self.flows[a.0 as usize], by);
        self.flows[a.0 as usize] = x;
        carry(&mut self.excesses, tail, head, by);
        if up { tail } else { head }
    }

    /// Moves the step along the path that the room holds, from its end back to its source.
    fn push_path(&mut self, room: &Room, step: i64)
        requires step { IsStep step }
        requires path { (ms : List Move) × HoldsPath self.old step room.now ms }
        ensures { (ms : List Move) → HoldsPath self.old step room.now ms → self.new ≡ record self.old { flows = after_moves step ms self.old.flows } }
    {
        let mut to = room.last;
        for _made in 0..self.graph().node_count() {
            match room.arc_to(to) {
                None => return,
                Some(a) => to = self.push_arc(a, to, step),
            }
        }
    }

    /// Moves the step along the path that the room holds.
    pub fn augment<L: Ledger>(&mut self, room: &Room, step: i64, steps: &mut Steps<L>)
        requires step { IsStep step }
        requires room { IsRoomFor (length self.old.graph.nodes) room.now }
        requires path { (ms : List Move) × HoldsPath self.old step room.now ms × All (IsTight self.old C.value_at step) ms }
        ensures flows { (ms : List Move) → HoldsPath self.old step room.now ms → self.new ≡ record self.old { flows = after_moves step ms self.old.flows } }
        ensures excess { (n : ℕ) → n < length self.old.graph.nodes → excess_of self.new n ≡ (excess_of self.old n -ℤ only_at room.now.source.0 step n) +ℤ only_at room.now.last.0 step n }
        ensures condition { MeetsAll C.value_at step self.old → MeetsAll C.value_at step self.new }
        ensures ticks { steps.new ≡ steps.old + 1 }
    {
        // The graph's limits bound what follows.
        self.graph();
        self.push_path(room, step);
        steps.tick();
    }

    /// Brings all potentials into 0 to 2 * 10^22, by closing gaps that no cost's slope reaches.
    pub fn close_gaps(&mut self, room: &mut Room)
        requires { IsRoomFor (length self.old.graph.nodes) room.old }
        ensures potentials { All (λ p. (pos 0 ≤ℤ p) × (p ≤ℤ pos (2 * 10 ^ 22))) self.new.potentials }
        ensures rest { self.new ≡ record self.old { potentials = self.new.potentials } }
        ensures shown { KeepsShown C.value_at self.old self.new }
        ensures heap { ChangesHeapAlone room.old room.new }
        ensures room { IsRoomFor (length self.new.graph.nodes) room.new }
    {
        // The graph's limits bound what follows.
        self.graph();
        number_nodes(&mut room.heap);
        sort_nodes(&mut room.heap, &self.potentials);
        close(&room.heap, &mut self.potentials);
    }

    /// The graph.
    pub fn graph(&self) -> &Graph<N, A>
        ensures value { result.now ≡ self.now.graph }
        ensures kept { IsFlowOf N.eq A.eq C.span_of self.now }
    {
        &self.graph
    }

    /// The flow on an arc.
    pub fn flow(&self, a: ArcId) -> i64
        requires { a.0 < length self.now.graph.arcs }
        ensures { slice_get self.now.flows a.0 ≡ Some result }
    {
        self.flows[a.0 as usize]
    }

    /// The potential of a node.
    pub fn potential(&self, n: NodeId) -> i128
        requires { n.0 < length self.now.graph.nodes }
        ensures { slice_get self.now.potentials n.0 ≡ Some result }
    {
        self.potentials[n.0 as usize]
    }

    /// The excess of a node.
    pub fn excess(&self, n: NodeId) -> i128
        requires { n.0 < length self.now.graph.nodes }
        ensures { result ≡ excess_of self.now n.0 }
    {
        self.excesses[n.0 as usize]
    }

    /// The cost of an arc.
    pub fn cost(&self, a: ArcId) -> &C
        requires { a.0 < length self.now.graph.arcs }
        ensures { slice_get self.now.costs a.0 ≡ Some result.now }
    {
        &self.costs[a.0 as usize]
    }
}
