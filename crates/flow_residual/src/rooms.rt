ghost use Rattle.std.specs.Prelude.{◌≡◌, ◌↔◌, ◌<◌, ◌==◌, if◌then◌else◌, true, Some, None, IsTrue, slice_get, slice_index_or, length, replicate, vec_len, IfOk};

use crate::states::State;
use flow_cost::Cost;
use flow_graph::{ArcId, Name, NodeId};
use no_memory::NoMemory;
use std::alloc::Global;

/// What a search and a solver write, and what `augment` reads: one entry for each node, and the ends of the path.
#[derive(Debug)]
pub struct Room {
    /// The nodes reached.
    pub set: Vec<bool>,
    pub dist: Vec<i128>,
    /// The arc by which each node was reached.
    pub by: Vec<Option<ArcId>>,
    pub heap: Vec<NodeId>,
    pub place: Vec<u32>,
    /// The nodes that a solver has put aside. A search only leaves them as they are.
    pub aside: Vec<bool>,
    pub source: NodeId,
    pub last: NodeId,
}

impl Drop for Room {
    fn drop(self) {
        let Room {
            set,
            dist,
            by,
            heap,
            place,
            aside,
            source: _,
            last: _,
        } = self;
        drop(set);
        drop(dist);
        drop(by);
        drop(heap);
        drop(place);
        drop(aside);
    }
}

/// So many copies of a value.
pub(crate) fn filled<T: Copy>(alloc: Global, count: usize, value: T) -> Result<Vec<T>, NoMemory>
    ensures { IfOk result (λ v. v.items ≡ replicate count value) }
{
    let mut items = Vec::new(alloc);
    for _made in 0..count {
        items.push(value)?;
    }
    Ok(items)
}

impl Room {
    ghost use Rattle.flow_residual.specs.Rooms.{IsRoomFor};

    /// A room for the searches of a state. None of them takes memory.
    pub fn for_state<N: Name, A: Name, C: Cost>(
        alloc: Global,
        s: &State<N, A, C>,
    ) -> Result<Room, NoMemory>
        ensures { IfOk result (IsRoomFor (length s.now.graph.nodes)) }
    {
        let count = s.graph().node_count() as usize;
        let set = filled(alloc, count, false)?;
        let dist = filled(alloc, count, -1)?;
        let by = filled(alloc, count, None)?;
        let heap = filled(alloc, count, NodeId(0))?;
        let place = filled(alloc, count, 0)?;
        let aside = filled(alloc, count, false)?;
        Ok(Room {
            set,
            dist,
            by,
            heap,
            place,
            aside,
            source: NodeId(0),
            last: NodeId(0),
        })
    }

    /// The arc by which the path came to a node; none at the path's source.
    pub(crate) fn arc_to(&self, to: NodeId) -> Option<ArcId>
        requires { ¬ (to.0 ≡ self.now.source.0) → to.0 < vec_len self.now.by }
        ensures { result ≡ (if to.0 == self.now.source.0 then None else slice_index_or self.now.by.items to.0 None) }
    {
        if to.0 == self.source.0 {
            return None;
        }
        self.by[to.0 as usize]
    }

    /// Whether a node was reached.
    pub fn in_set(&self, n: NodeId) -> bool
        requires { n.0 < vec_len self.now.set }
        ensures { IsTrue result ↔ (slice_get self.now.set.items n.0 ≡ Some true) }
    {
        self.set[n.0 as usize]
    }
}
