//! A walk over tight moves from both ends: forward from the source, and backward from the nodes that lack the step. It
//! promises no path: what it leaves in the room is to be followed back.
ghost use Rattle.std.specs.Prelude.{◌≡◌, ℕ, ◌*◌, ◌^◌, ◌<◌, pos, length, vec_len, IsTrue, IfSome};
ghost use Rattle.flow_graph.specs.Condition.{ArePotentials};
ghost use Rattle.flow_residual.specs.Flows.{IsStep};
ghost use Rattle.flow_residual.specs.Rooms.{IsRoomFor};

use crate::following::left_by;
use crate::frontier::fill;
use crate::relaxing::lacks;
use flow_cost::Cost;
use flow_graph::{ArcId, Name, NodeId};
use flow_residual::{Room, State};

/// A node that no walk has met, one that the walk forward has, and one that the walk backward has.
const NONE: u32 = 0;

const FORWARD: u32 = 1;

const BACKWARD: u32 = 2;

/// The nodes that one walk has met: from the front of the room's `heap` on, or from its end on.
#[derive(Clone, Copy)]
struct Walk {
    side: u32,
    /// How many nodes it has met.
    met: usize,
    /// At how many of them it has looked.
    looked: usize,
    /// How many arcs it has looked at.
    arcs: usize,
}

/// What comes of a look at one node.
#[derive(Clone, Copy)]
enum Turn {
    /// No node was left.
    Out,
    On,
    /// The two walks meet.
    Met,
}

/// The place of a walk's node in a list.
fn slot(count: usize, side: u32, i: usize) -> usize
    requires { i < count }
    ensures { result < count }
{
    if side == FORWARD { i } else { count - 1 - i }
}

/// Adds a node to a walk.
fn push(nodes: &mut [NodeId], walk: &mut Walk, n: NodeId)
    ensures { length nodes.new ≡ length nodes.old }
{
    if walk.met < nodes.len() {
        let at = slot(nodes.len(), walk.side, walk.met);
        nodes[at] = n;
        walk.met += 1;
    }
}

/// The next node that a walk is to look at.
fn pop(nodes: &[NodeId], walk: &mut Walk) -> Option<NodeId> {
    if walk.looked >= walk.met || walk.looked >= nodes.len() {
        return None;
    }
    let n = nodes[slot(nodes.len(), walk.side, walk.looked)];
    walk.looked += 1;
    Some(n)
}

/// The other end of an arc.
fn other_end<N: Name, A: Name, C: Cost>(s: &State<N, A, C>, n: NodeId, a: ArcId) -> NodeId
    requires { a.0 < length s.now.graph.arcs }
    ensures { result.0 < length s.now.graph.nodes }
{
    let (tail, head) = s.graph().ends(a);
    if tail.0 == n.0 { head } else { tail }
}

/// Lets a walk meet a node, by an arc.
fn meet_node(room: &mut Room, walk: &mut Walk, n: NodeId, by: Option<ArcId>)
    requires there { n.0 < vec_len room.old.set }
    requires room { IsRoomFor (vec_len room.old.set) room.old }
    ensures source { room.new.source ≡ room.old.source }
    ensures aside { room.new.aside ≡ room.old.aside }
    ensures room { IsRoomFor (vec_len room.old.set) room.new }
{
    room.place[n.0 as usize] = walk.side;
    room.by[n.0 as usize] = by;
    push(&mut room.heap, walk, n);
}

/// Tries the arc from a node of a walk: the node at its other end joins the walk where the move there is tight. Answers
/// whether the other walk has met that node.
fn try_arc<N: Name, A: Name, C: Cost>(
    s: &State<N, A, C>,
    room: &mut Room,
    walk: &mut Walk,
    u: NodeId,
    a: ArcId,
    step: i64,
) -> bool
    requires step { IsStep step }
    requires from { u.0 < length s.now.graph.nodes }
    requires there { a.0 < length s.now.graph.arcs }
    requires potentials { ArePotentials (pos (2 * 10 ^ 22)) (length s.now.graph.nodes) s.now.potentials }
    requires room { IsRoomFor (length s.now.graph.nodes) room.old }
    ensures source { room.new.source ≡ room.old.source }
    ensures aside { room.new.aside ≡ room.old.aside }
    ensures room { IsRoomFor (length s.now.graph.nodes) room.new }
{
    let n = other_end(s, u, a);
    let side = room.place[n.0 as usize];
    if side == walk.side {
        return false;
    }
    let entered = if walk.side == FORWARD { n } else { u };
    if left_by(s, entered, a, step).is_none() {
        return false;
    }
    if side == NONE {
        meet_node(room, walk, n, Some(a));
        return false;
    }
    true
}

/// Looks at each arc of a node of a walk. Answers the arc to a node that the other walk has met.
fn look<N: Name, A: Name, C: Cost>(
    s: &State<N, A, C>,
    room: &mut Room,
    walk: &mut Walk,
    u: NodeId,
    step: i64,
) -> Option<ArcId>
    requires step { IsStep step }
    requires there { u.0 < length s.now.graph.nodes }
    requires potentials { ArePotentials (pos (2 * 10 ^ 22)) (length s.now.graph.nodes) s.now.potentials }
    requires room { IsRoomFor (length s.now.graph.nodes) room.old }
    ensures arc { IfSome result (λ a. a.0 < length s.now.graph.arcs) }
    ensures source { room.new.source ≡ room.old.source }
    ensures aside { room.new.aside ≡ room.old.aside }
    ensures room { IsRoomFor (length s.now.graph.nodes) room.new }
{
    for a in s.graph().arcs_at(u) {
        walk.arcs = walk.arcs.saturating_add(1);
        if try_arc(s, room, walk, u, a, step) {
            return Some(a);
        }
    }
    None
}

/// Turns the way from a node of the walk backward round: each node on it was reached by the arc before it. The node where
/// the way ends is the room's last.
fn turn_round<N: Name, A: Name, C: Cost>(
    s: &State<N, A, C>,
    room: &mut Room,
    first: NodeId,
    by: ArcId,
)
    requires there { first.0 < length s.now.graph.nodes }
    requires room { IsRoomFor (length s.now.graph.nodes) room.old }
    ensures last { room.new.last.0 < length s.now.graph.nodes }
    ensures source { room.new.source ≡ room.old.source }
    ensures aside { room.new.aside ≡ room.old.aside }
    ensures room { IsRoomFor (length s.now.graph.nodes) room.new }
{
    room.last = first;
    let mut arc = by;
    for _turn in 0..s.graph().node_count() {
        let n = room.last;
        let next = room.by[n.0 as usize];
        room.by[n.0 as usize] = Some(arc);
        if let Some(a) = next
            && a.0 < s.graph().arc_count()
        {
            room.last = other_end(s, n, a);
            arc = a;
        } else {
            return;
        }
    }
}

/// Looks at the next node of a walk. Where the walks meet, the room's arcs and its last node are those of the way.
fn advance<N: Name, A: Name, C: Cost>(
    s: &State<N, A, C>,
    room: &mut Room,
    walk: &mut Walk,
    step: i64,
) -> Turn
    requires step { IsStep step }
    requires potentials { ArePotentials (pos (2 * 10 ^ 22)) (length s.now.graph.nodes) s.now.potentials }
    requires room { IsRoomFor (length s.now.graph.nodes) room.old }
    ensures last { result ≡ Turn.Met → room.new.last.0 < length s.now.graph.nodes }
    ensures source { room.new.source ≡ room.old.source }
    ensures aside { room.new.aside ≡ room.old.aside }
    ensures room { IsRoomFor (length s.now.graph.nodes) room.new }
{
    if let Some(u) = pop(&room.heap, walk)
        && u.0 < s.graph().node_count()
    {
        if let Some(a) = look(s, room, walk, u, step) {
            let first = if walk.side == FORWARD {
                other_end(s, u, a)
            } else {
                u
            };
            turn_round(s, room, first, a);
            return Turn::Met;
        }
        return Turn::On;
    }
    Turn::Out
}

/// The walk backward, at each node that lacks the step.
fn start_backward<N: Name, A: Name, C: Cost>(s: &State<N, A, C>, room: &mut Room, step: i64) -> Walk
    requires step { IsStep step }
    requires room { IsRoomFor (length s.now.graph.nodes) room.old }
    ensures source { room.new.source ≡ room.old.source }
    ensures aside { room.new.aside ≡ room.old.aside }
    ensures room { IsRoomFor (length s.now.graph.nodes) room.new }
{
    let mut walk = Walk {
        side: BACKWARD,
        met: 0,
        looked: 0,
        arcs: 0,
    };
    for n in 0..s.graph().node_count() {
        if lacks(s, NodeId(n), step) {
            meet_node(room, &mut walk, NodeId(n), None);
        }
    }
    walk
}

/// The walk forward, at the source.
fn start_forward(room: &mut Room) -> Walk
    requires there { room.old.source.0 < vec_len room.old.set }
    requires room { IsRoomFor (vec_len room.old.set) room.old }
    ensures source { room.new.source ≡ room.old.source }
    ensures aside { room.new.aside ≡ room.old.aside }
    ensures room { IsRoomFor (vec_len room.old.set) room.new }
{
    fill(&mut room.place, NONE);
    fill(&mut room.by, None);
    let mut walk = Walk {
        side: FORWARD,
        met: 0,
        looked: 0,
        arcs: 0,
    };
    let source = room.source;
    meet_node(room, &mut walk, source, None);
    walk
}

/// Walks from both ends, always on with the walk that has looked at fewer arcs. Answers whether they meet.
pub(crate) fn meet<N: Name, A: Name, C: Cost>(
    s: &State<N, A, C>,
    room: &mut Room,
    step: i64,
) -> bool
    requires step { IsStep step }
    requires source { room.old.source.0 < length s.now.graph.nodes }
    requires potentials { ArePotentials (pos (2 * 10 ^ 22)) (length s.now.graph.nodes) s.now.potentials }
    requires room { IsRoomFor (length s.now.graph.nodes) room.old }
    ensures last { IsTrue result → room.new.last.0 < length s.now.graph.nodes }
    ensures source { room.new.source ≡ room.old.source }
    ensures aside { room.new.aside ≡ room.old.aside }
    ensures room { IsRoomFor (length s.now.graph.nodes) room.new }
{
    let mut ahead = start_forward(room);
    let mut behind = start_backward(s, room, step);
    for _turn in 0..s.graph().node_count() {
        let turn = if ahead.arcs <= behind.arcs {
            advance(s, room, &mut ahead, step)
        } else {
            advance(s, room, &mut behind, step)
        };
        match turn {
            Turn::Met => return true,
            Turn::Out => return false,
            Turn::On => {}
        }
    }
    false
}
