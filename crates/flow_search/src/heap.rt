//! A binary heap of nodes by their distances: the first `count` of a list of nodes, with the place of each told in `place`.
ghost use Rattle.std.specs.Prelude.{◌≡◌, ◌≢◌, ℕ, false, ◌+◌, ◌*◌, ◌<◌, ◌≤◌, ◌⊎◌, ◌≤ℤ◌, negsuc, length, slice_set, slice_index_or, IsTrue};
ghost use Rattle.std.specs.List.{SwappedAt};
ghost use Rattle.flow_residual.specs.Gaps.{node_at};
ghost use Rattle.flow_search.specs.Heap.{parent, key_at, IsHeap, IsHeapButAt, IsHeapButBelow, ArePlaced, IsQueue, IsAmong, IsReordered, Sifts};

use flow_graph::NodeId;

/// Exchanges the nodes at two places.
fn exchange(nodes: &mut [NodeId], place: &mut [u32], a: usize, b: usize)
    requires a { a < length nodes.old }
    requires b { b < length nodes.old }
    requires small { length nodes.old ≤ 262_144 }
    requires a_within { node_at nodes.old a < length place.old }
    requires b_within { node_at nodes.old b < length place.old }
    ensures nodes { SwappedAt nodes.old nodes.new a b }
    ensures places { place.new ≡ slice_set (slice_set place.old (node_at nodes.old b) a) (node_at nodes.old a) b }
{
    let first = nodes[a];
    let second = nodes[b];
    nodes.swap(a, b);
    place[second.0 as usize] = a as u32;
    place[first.0 as usize] = b as u32;
}

/// Whether the node at a place is no farther than the one at another.
fn is_as_near(dist: &[i128], nodes: &[NodeId], a: usize, b: usize) -> bool
    requires a { a < length nodes.now }
    requires b { b < length nodes.now }
    requires a_within { node_at nodes.now a < length dist.now }
    requires b_within { node_at nodes.now b < length dist.now }
    ensures as_near { IsTrue result → key_at dist.now nodes.now a ≤ℤ key_at dist.now nodes.now b }
    ensures nearer { result ≡ false → key_at dist.now nodes.now b ≤ℤ key_at dist.now nodes.now a }
{
    dist[nodes[a].0 as usize] <= dist[nodes[b].0 as usize]
}

/// Moves the node at a place up until the one above it is no farther.
fn sift_up(dist: &[i128], nodes: &mut [NodeId], place: &mut [u32], start: usize)
    requires there { start < length nodes.old }
    requires small { length nodes.old ≤ 262_144 }
    requires same { length dist.now ≡ length place.old }
    requires placed { ArePlaced nodes.old place.old (start + 1) }
    ensures sifts { (n : ℕ) → start < n → Sifts nodes.old place.old nodes.new place.new n }
    ensures heap { (n : ℕ) → start < n → IsHeapButAt (key_at dist.now nodes.old) n start → IsHeap (key_at dist.now nodes.new) n }
{
    let mut at = start;
    while at > 0 {
        let above = (at - 1) / 2;
        if is_as_near(dist, nodes, above, at) {
            return;
        }
        exchange(nodes, place, above, at);
        at = above;
    }
}

/// The place of the nearer of the nodes below a place that has one.
fn nearer_below(dist: &[i128], nodes: &[NodeId], count: usize, at: usize) -> usize
    requires counted { count ≤ length nodes.now }
    requires small { length nodes.now ≤ 262_144 }
    requires there { 2 * at + 1 < count }
    requires within { (i : ℕ) → i < count → node_at nodes.now i < length dist.now }
    ensures there { (result < count) × (at < result) × (parent result ≡ at) }
    ensures nearer { (i : ℕ) → 0 < i → i < count → parent i ≡ at → key_at dist.now nodes.now result ≤ℤ key_at dist.now nodes.now i }
{
    let left = 2 * at + 1;
    let right = left + 1;
    if right < count && !is_as_near(dist, nodes, left, right) {
        return right;
    }
    left
}

/// Moves the first node down until those below it are no nearer.
fn sift_down(dist: &[i128], nodes: &mut [NodeId], place: &mut [u32], count: usize)
    requires counted { count ≤ length nodes.old }
    requires small { length nodes.old ≤ 262_144 }
    requires same { length dist.now ≡ length place.old }
    requires placed { ArePlaced nodes.old place.old count }
    requires heap { IsHeapButBelow (key_at dist.now nodes.old) count 0 }
    ensures queue { IsQueue dist.now nodes.new place.new count }
    ensures nodes { IsReordered nodes.old nodes.new count }
{
    let mut at = 0;
    while 2 * at + 1 < count {
        let below = nearer_below(dist, nodes, count, at);
        if is_as_near(dist, nodes, at, below) {
            return;
        }
        exchange(nodes, place, at, below);
        at = below;
    }
}

/// Takes the first node out.
pub(crate) fn take_first(
    dist: &[i128],
    nodes: &mut [NodeId],
    place: &mut [u32],
    count: &mut usize,
) -> NodeId
    requires some { 0 < count.old }
    requires counted { count.old ≤ length nodes.old }
    requires small { length nodes.old ≤ 262_144 }
    requires same { length dist.now ≡ length place.old }
    requires queue { IsQueue dist.now nodes.old place.old count.old }
    ensures fewer { count.new + 1 ≡ count.old }
    ensures queue { IsQueue dist.now nodes.new place.new count.new }
    ensures first { result.0 ≡ node_at nodes.old 0 }
    ensures nearest { (v : ℕ) → IsAmong nodes.old count.old v → slice_index_or dist.now result.0 (negsuc 0) ≤ℤ slice_index_or dist.now v (negsuc 0) }
    ensures kept { (v : ℕ) → IsAmong nodes.old count.old v → IsAmong nodes.new count.new v ⊎ (v ≡ result.0) }
    ensures no_more { (v : ℕ) → IsAmong nodes.new count.new v → IsAmong nodes.old count.old v }
{
    let first = nodes[0];
    *count -= 1;
    exchange(nodes, place, 0, *count);
    sift_down(dist, nodes, place, *count);
    first
}

/// Brings a node in.
pub(crate) fn bring_in(
    dist: &[i128],
    nodes: &mut [NodeId],
    place: &mut [u32],
    count: &mut usize,
    v: NodeId,
)
    requires counted { count.old < length nodes.old }
    requires small { length nodes.old ≤ 262_144 }
    requires same { length dist.now ≡ length place.old }
    requires queue { IsQueue dist.now nodes.old place.old count.old }
    requires there { v.0 < length dist.now }
    requires apart { (i : ℕ) → i < count.old → node_at nodes.old i ≢ v.0 }
    ensures more { count.new ≡ count.old + 1 }
    ensures queue { IsQueue dist.now nodes.new place.new count.new }
    ensures kept { (w : ℕ) → IsAmong nodes.old count.old w ⊎ (w ≡ v.0) → IsAmong nodes.new count.new w }
    ensures no_more { (w : ℕ) → IsAmong nodes.new count.new w → IsAmong nodes.old count.old w ⊎ (w ≡ v.0) }
    ensures beyond { (i : ℕ) → count.new ≤ i → node_at nodes.new i ≡ node_at nodes.old i }
{
    let last = *count;
    nodes[last] = v;
    place[v.0 as usize] = last as u32;
    *count += 1;
    sift_up(dist, nodes, place, last);
}

/// Moves a node that has come nearer up, where it is in the heap.
pub(crate) fn lift(dist: &[i128], nodes: &mut [NodeId], place: &mut [u32], count: usize, v: NodeId)
    requires counted { count ≤ length nodes.old }
    requires small { length nodes.old ≤ 262_144 }
    requires same { length dist.now ≡ length place.old }
    requires placed { ArePlaced nodes.old place.old count }
    requires there { v.0 < length dist.now }
    requires apart { (IsAmong nodes.old count v.0 → ⊥) → IsHeap (key_at dist.now nodes.old) count }
    requires at { (i : ℕ) → i < count → node_at nodes.old i ≡ v.0 → IsHeapButAt (key_at dist.now nodes.old) count i }
    ensures queue { IsQueue dist.now nodes.new place.new count }
    ensures nodes { IsReordered nodes.old nodes.new count }
{
    let at = place[v.0 as usize] as usize;
    if at < count && nodes[at].0 == v.0 {
        sift_up(dist, nodes, place, at);
    }
}
