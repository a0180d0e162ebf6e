ghost use Rattle.std.specs.Prelude.{◌≡◌, ℕ, ◌+◌, ◌*◌, ◌^◌, ◌<◌, ◌≤◌, ℤ, pos, ◌-ℤ◌, ◌≤ℤ◌, length, slice_index_or, All, IsPermutation};
ghost use Rattle.std.specs.Int.{int_min};
ghost use Rattle.flow_cost.specs.Cost.{IsWithin};
ghost use Rattle.flow_residual.specs.Gaps.{KeepsGap, IsOrder, node_at};

use flow_graph::NodeId;

/// One more than any slope.
const WIDEST: i128 = 40_000_000_000_000_001;

/// Writes each node at its own place.
pub(crate) fn number_nodes(nodes: &mut Vec<NodeId>)
    requires { length nodes.old.items ≤ 262_144 }
    ensures counted { length nodes.new.items ≡ length nodes.old.items }
    ensures numbered { (j : ℕ) → j < length nodes.new.items → node_at nodes.new.items j ≡ j }
{
    for i in 0..nodes.len() {
        nodes[i] = NodeId(i as u32);
    }
}

/// The potential of a node, or 0 of one that is not there.
fn potential_or_zero(potentials: &[i128], n: NodeId) -> i128
    ensures { result ≡ slice_index_or potentials.now n.0 (pos 0) }
{
    potentials.get(n.0 as usize).copied().unwrap_or(0)
}

/// Puts nodes in the order of their potentials.
pub(crate) fn sort_nodes(nodes: &mut Vec<NodeId>, potentials: &[i128])
    ensures permutation { IsPermutation nodes.old.items nodes.new.items }
    ensures ascending { (j : ℕ) → j + 1 < length nodes.new.items → slice_index_or potentials.now (node_at nodes.new.items j) (pos 0) ≤ℤ slice_index_or potentials.now (node_at nodes.new.items (j + 1)) (pos 0) }
{
    nodes.sort_unstable_by_key(|n| potential_or_zero(potentials, *n));
}

/// The gap up to a potential, or one more than any slope where the gap is wider.
fn narrowed(before: i128, p: i128) -> i128
    requires before { IsWithin (pos (10 ^ 24)) before }
    requires p { IsWithin (pos (10 ^ 24)) p }
    ensures { result ≡ int_min (p -ℤ before) (pos (4 * 10 ^ 16 + 1)) }
{
    (p - before).min(WIDEST)
}

/// Lets the lowest potential be 0, and no gap wider than one more than any slope.
pub(crate) fn close(nodes: &[NodeId], potentials: &mut Vec<i128>)
    requires order { IsOrder nodes.now potentials.old.items }
    requires small { length nodes.now ≤ 262_144 }
    requires range { All (IsWithin (pos (10 ^ 24))) potentials.old.items }
    ensures counted { length potentials.new.items ≡ length potentials.old.items }
    ensures kept { (u v : ℕ) → u < length potentials.old.items → v < length potentials.old.items → KeepsGap (slice_index_or potentials.old.items u (pos 0)) (slice_index_or potentials.old.items v (pos 0)) (slice_index_or potentials.new.items u (pos 0)) (slice_index_or potentials.new.items v (pos 0)) }
    ensures range { All (λ p. (pos 0 ≤ℤ p) × (p ≤ℤ pos (2 * 10 ^ 22))) potentials.new.items }
{
    if nodes.is_empty() {
        return;
    }
    let mut before = potentials[nodes[0].0 as usize];
    let mut top: i128 = 0;
    for n in nodes {
        let p = potentials[n.0 as usize];
        top += narrowed(before, p);
        potentials[n.0 as usize] = top;
        before = p;
    }
}
