//! The reached nodes that are not settled. Those that are no further than the node settled last are ready: they are listed
//! from the end of the room's `heap` on. The others are a heap from its front on, with the place of each in `place`.
ghost use Rattle.std.specs.Prelude.{◌≡◌, ℕ, ◌+◌, ◌<◌, ◌≤◌, ◌⊎◌, ℤ, pos, negsuc, false, true, ◌≤ℤ◌, length, replicate, count_by, slice_set, slice_index_or, IsTrue, MatchOption, vec_len};
ghost use Rattle.flow_residual.specs.Rooms.{IsRoomFor};
ghost use Rattle.flow_graph.specs.Contradiction.{in_set};
ghost use Rattle.flow_residual.specs.Gaps.{node_at};
ghost use Rattle.flow_search.specs.Heap.{IsAmong, IsQueue};
ghost use Rattle.flow_search.specs.Labels.{labels_of, distance};
ghost use Rattle.flow_search.specs.Frontier.{at_start, Takes, TakesNone, Declines, Accepts, IsBest, IsReachedWithin, is_reached, ready_at, IsAmongReady, AreKept, IsListed, AreListed, HasListed, ListsOf, HasLists};

use crate::heap::{bring_in, lift, take_first};
use flow_graph::{ArcId, NodeId};
use flow_residual::Room;

/// How many nodes are in the heap, and how many are ready.
#[derive(Clone, Copy)]
pub(crate) struct Waiting {
    pub heaped: usize,
    pub ready: usize,
}

/// Writes a value into each place.
pub(crate) fn fill<T: Copy>(xs: &mut [T], value: T)
    ensures { xs.new ≡ replicate (length xs.old) value }
{
    for x in xs.iter_mut() {
        *x = value;
    }
}

/// Nothing is settled, and the source is reached.
fn clear(room: &mut Room, source: NodeId)
    requires room { IsRoomFor (vec_len room.old.set) room.old }
    requires there { source.0 < vec_len room.old.set }
    ensures labels { labels_of room.new ≡ at_start (vec_len room.old.set) source.0 }
    ensures source { room.new.source ≡ source }
    ensures aside { room.new.aside ≡ room.old.aside }
    ensures room { IsRoomFor (vec_len room.old.set) room.new }
{
    fill(&mut room.set, false);
    fill(&mut room.dist, -1);
    fill(&mut room.by, None);
    room.dist[source.0 as usize] = 0;
    room.source = source;
}

/// Nothing is settled, and the source is reached. It is ready.
pub(crate) fn start(room: &mut Room, source: NodeId) -> Waiting
    requires room { IsRoomFor (vec_len room.old.set) room.old }
    requires there { source.0 < vec_len room.old.set }
    ensures labels { labels_of room.new ≡ at_start (vec_len room.old.set) source.0 }
    ensures lists { HasLists room.new result }
    ensures source { room.new.source ≡ source }
    ensures aside { room.new.aside ≡ room.old.aside }
    ensures room { IsRoomFor (vec_len room.old.set) room.new }
{
    clear(room, source);
    let last = room.heap.len() - 1;
    room.heap[last] = source;
    Waiting {
        heaped: 0,
        ready: 1,
    }
}

/// The last of the ready nodes that is not settled, taken off their list with those after it.
fn pop_ready(set: &[bool], nodes: &[NodeId], ready: &mut usize) -> Option<usize>
    requires counted { ready.old ≤ length nodes.now }
    requires within { (j : ℕ) → j < ready.old → ready_at nodes.now j < length set.now }
    ensures fewer { ready.new ≤ ready.old }
    ensures popped { MatchOption result (ready.new ≡ 0) (λ u. IsAmongReady nodes.now ready.old u × (in_set set.now u ≡ false)) }
    ensures rest { (v : ℕ) → in_set set.now v ≡ false → IsAmongReady nodes.now ready.old v → IsAmongReady nodes.now ready.new v ⊎ (result ≡ Some v) }
{
    while *ready > 0 {
        let u = nodes[nodes.len() - *ready].0 as usize;
        *ready -= 1;
        if !set[u] {
            return Some(u);
        }
    }
    None
}

/// The first of the heap that is not settled, taken out with those before it.
fn pop_heap(
    set: &[bool],
    dist: &[i128],
    nodes: &mut [NodeId],
    place: &mut [u32],
    heaped: &mut usize,
) -> Option<usize>
    requires counted { heaped.old ≤ length nodes.old }
    requires small { length nodes.old ≤ 262_144 }
    requires same { length dist.now ≡ length place.old }
    requires same_set { length dist.now ≡ length set.now }
    requires queue { IsQueue dist.now nodes.old place.old heaped.old }
    ensures fewer { heaped.new ≤ heaped.old }
    ensures queue { IsQueue dist.now nodes.new place.new heaped.new }
    ensures popped { MatchOption result (heaped.new ≡ 0) (λ u. IsAmong nodes.old heaped.old u × (in_set set.now u ≡ false) × ((v : ℕ) → in_set set.now v ≡ false → IsAmong nodes.old heaped.old v → slice_index_or dist.now u (negsuc 0) ≤ℤ slice_index_or dist.now v (negsuc 0))) }
    ensures rest { (v : ℕ) → in_set set.now v ≡ false → IsAmong nodes.old heaped.old v → IsAmong nodes.new heaped.new v ⊎ (result ≡ Some v) }
    ensures no_more { (v : ℕ) → IsAmong nodes.new heaped.new v → IsAmong nodes.old heaped.old v }
{
    while *heaped > 0 {
        let u = take_first(dist, nodes, place, heaped).0 as usize;
        if !set[u] {
            return Some(u);
        }
    }
    None
}

/// A nearest node that was reached and is not settled, taken out of its list: a ready one, or else the first of the heap.
fn next(
    set: &[bool],
    dist: &[i128],
    nodes: &mut [NodeId],
    place: &mut [u32],
    waiting: &mut Waiting,
) -> Option<usize>
    requires small { length nodes.old ≤ 262_144 }
    requires same { length dist.now ≡ length set.now }
    requires lists { HasListed set.now dist.now nodes.old place.old waiting.old }
    ensures nearest { IsBest set.now dist.now (length set.now) result }
    ensures lists { MatchOption result (Unit {0}) (λ u. AreListed (slice_set set.now u true) dist.now nodes.new place.new waiting.new (slice_index_or dist.now u (negsuc 0))) }
{
    if let Some(u) = pop_ready(set, nodes, &mut waiting.ready) {
        return Some(u);
    }
    pop_heap(set, dist, nodes, place, &mut waiting.heaped)
}

/// Settles a nearest node that was reached and is not settled.
pub(crate) fn take_nearest(room: &mut Room, waiting: &mut Waiting) -> Option<NodeId>
    requires room { IsRoomFor (vec_len room.old.set) room.old }
    requires small { vec_len room.old.set ≤ 262_144 }
    requires lists { HasLists room.old waiting.old }
    ensures taken { MatchOption result (TakesNone (labels_of room.old) (labels_of room.new)) (λ u. Takes (labels_of room.old) (labels_of room.new) u.0) }
    ensures there { MatchOption result (Unit {0}) (λ u. u.0 < vec_len room.old.set) }
    ensures lists { MatchOption result (Unit {0}) (λ u. ListsOf room.new waiting.new (distance (labels_of room.new) u.0)) }
    ensures source { room.new.source ≡ room.old.source }
    ensures aside { room.new.aside ≡ room.old.aside }
    ensures room { IsRoomFor (vec_len room.old.set) room.new }
{
    let u = next(
        &room.set,
        &room.dist,
        &mut room.heap,
        &mut room.place,
        waiting,
    )?;
    room.set[u] = true;
    Some(NodeId(u as u32))
}

/// Whether a distance is of a node that was reached, and is no further than this.
pub(crate) fn is_within(d: i128, at: i128) -> bool
    ensures { IsTrue result → IsReachedWithin at d }
{
    0 <= d && d <= at
}

/// Whether a node is no further than this.
fn is_no_further(dist: &[i128], v: NodeId, at: i128) -> bool
    requires { v.0 < length dist.now }
    ensures { IsTrue result → slice_index_or dist.now v.0 (negsuc 0) ≤ℤ at }
{
    dist[v.0 as usize] <= at
}

/// Adds a node to the ready ones, as the last of them or before the last.
fn push_ready(nodes: &mut [NodeId], ready: &mut usize, v: NodeId, before_last: bool)
    requires { ready.old < length nodes.old }
    ensures more { ready.new ≡ ready.old + 1 }
    ensures kept { (w : ℕ) → IsAmongReady nodes.old ready.old w ⊎ (w ≡ v.0) → IsAmongReady nodes.new ready.new w }
    ensures no_more { (w : ℕ) → IsAmongReady nodes.new ready.new w → IsAmongReady nodes.old ready.old w ⊎ (w ≡ v.0) }
    ensures before { (i : ℕ) → i + ready.new < length nodes.old → node_at nodes.new i ≡ node_at nodes.old i }
{
    let last = nodes.len() - *ready;
    *ready += 1;
    if before_last && last < nodes.len() {
        nodes[last - 1] = nodes[last];
        nodes[last] = v;
        return;
    }
    nodes[last - 1] = v;
}

/// Lists a node that was reached just now: it is ready where it is no further than `at`.
fn enlist(
    dist: &[i128],
    nodes: &mut [NodeId],
    place: &mut [u32],
    waiting: &mut Waiting,
    v: NodeId,
    at: i128,
    before_last: bool,
)
    requires small { length nodes.old ≤ 262_144 }
    requires there { v.0 < length dist.now }
    requires reached { pos 0 ≤ℤ slice_index_or dist.now v.0 (negsuc 0) }
    requires apart { IsAmong nodes.old waiting.old.heaped v.0 → ⊥ }
    requires kept { AreKept dist.now nodes.old place.old waiting.old at }
    requires added { waiting.old.heaped + waiting.old.ready < count_by is_reached dist.now }
    ensures kept { AreKept dist.now nodes.new place.new waiting.new at }
    ensures listed { (w : ℕ) → IsListed nodes.old waiting.old w ⊎ (w ≡ v.0) → IsListed nodes.new waiting.new w }
{
    if is_no_further(dist, v, at) {
        push_ready(nodes, &mut waiting.ready, v, before_last);
    } else {
        bring_in(dist, nodes, place, &mut waiting.heaped, v);
    }
}

/// Gives a node a distance and an arc by which it was reached, where that is nearer than before. Answers whether it is.
fn improve(room: &mut Room, v: NodeId, d: i128, a: ArcId) -> bool
    requires room { IsRoomFor (vec_len room.old.set) room.old }
    requires there { v.0 < vec_len room.old.set }
    ensures declines { result ≡ false → Declines (labels_of room.old) (labels_of room.new) v.0 d }
    ensures accepts { IsTrue result → Accepts (labels_of room.old) (labels_of room.new) v.0 d a }
    ensures nodes { room.new.heap ≡ room.old.heap }
    ensures places { room.new.place ≡ room.old.place }
    ensures source { room.new.source ≡ room.old.source }
    ensures aside { room.new.aside ≡ room.old.aside }
    ensures room { IsRoomFor (vec_len room.old.set) room.new }
{
    let before = room.dist[v.0 as usize];
    if before >= 0 && before <= d {
        return false;
    }
    room.dist[v.0 as usize] = d;
    room.by[v.0 as usize] = Some(a);
    true
}

/// Gives a node a distance and an arc by which it was reached, where that is nearer than before. A node that is then no
/// further than `at` is ready, and is taken next, or after the last of those that are.
pub(crate) fn offer(
    room: &mut Room,
    waiting: &mut Waiting,
    v: NodeId,
    d: i128,
    a: ArcId,
    at: i128,
    before_last: bool,
)
    requires room { IsRoomFor (vec_len room.old.set) room.old }
    requires small { vec_len room.old.set ≤ 262_144 }
    requires there { v.0 < vec_len room.old.set }
    requires low { pos 0 ≤ℤ d }
    requires lists { ListsOf room.old waiting.old at }
    ensures offered { Declines (labels_of room.old) (labels_of room.new) v.0 d ⊎ Accepts (labels_of room.old) (labels_of room.new) v.0 d a }
    ensures lists { ListsOf room.new waiting.new at }
    ensures source { room.new.source ≡ room.old.source }
    ensures aside { room.new.aside ≡ room.old.aside }
    ensures room { IsRoomFor (vec_len room.old.set) room.new }
{
    let known = room.dist[v.0 as usize] >= 0;
    if !improve(room, v, d, a) {
        return;
    }
    if known {
        lift(
            &room.dist,
            &mut room.heap,
            &mut room.place,
            waiting.heaped,
            v,
        );
    } else {
        enlist(
            &room.dist,
            &mut room.heap,
            &mut room.place,
            waiting,
            v,
            at,
            before_last,
        );
    }
}
