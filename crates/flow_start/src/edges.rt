use crate::asking::{NEVER, settled, slope};
use flow_cost::Cost;
use flow_graph::{ArcId, Name};
use flow_residual::State;

/// An arc between two groups, with its flow and the slopes of its cost next to it.
#[derive(Clone, Copy)]
pub(crate) struct Edge {
    pub(crate) tail: u32,
    pub(crate) head: u32,
    pub(crate) lo: i64,
    pub(crate) hi: i64,
    pub(crate) flow: i64,
    /// What the next unit costs, where the flow may rise.
    up: i64,
    /// What the last unit cost, where the flow may fall.
    down: i64,
}

/// An arc at one of its ends.
#[derive(Clone, Copy)]
pub(crate) struct Half {
    pub(crate) arc: u32,
    /// The end is the arc's tail.
    pub(crate) outward: bool,
}

impl Half {
    /// None.
    pub(crate) const NONE: Half = Half {
        arc: u32::MAX,
        outward: false,
    };
}

impl Edge {
    /// None: it lets nothing through.
    pub(crate) const NONE: Edge = Edge {
        tail: 0,
        head: 0,
        lo: 0,
        hi: 0,
        flow: 0,
        up: NEVER,
        down: -NEVER,
    };

    /// An arc between two groups, with these bounds and no flow yet.
    pub(crate) fn between(tail: u32, head: u32, lo: i64, hi: i64) -> Edge {
        Edge {
            tail,
            head,
            lo,
            hi,
            ..Edge::NONE
        }
    }

    /// The edge with another flow.
    fn carrying<C: Cost>(self, cost: &C, flow: i64) -> Edge {
        let up = if flow < self.hi {
            slope(cost, flow)
        } else {
            NEVER
        };
        let down = if flow > self.lo {
            slope(cost, flow.saturating_sub(1))
        } else {
            -NEVER
        };
        Edge {
            flow,
            up,
            down,
            ..self
        }
    }

    /// The edge with its flow moved to where it settles between two bounds at a price.
    pub(crate) fn moved<N: Name, A: Name, C: Cost>(
        self,
        s: &State<N, A, C>,
        a: u32,
        (lo, hi): (i64, i64),
        price: i128,
    ) -> Edge {
        if a >= s.graph().arc_count() {
            return self;
        }
        let cost = s.cost(ArcId(a));
        let flow = settled(cost, self.flow, lo, hi, price);
        if flow == self.flow {
            return self;
        }
        self.carrying(cost, flow)
    }

    /// The edge with the flow that settles it at price 0, nearest to 0.
    pub(crate) fn unpriced<N: Name, A: Name, C: Cost>(self, s: &State<N, A, C>, a: u32) -> Edge {
        if a >= s.graph().arc_count() {
            return self;
        }
        let cost = s.cost(ArcId(a));
        self.carrying(cost, settled(cost, 0, self.lo, self.hi, 0))
    }

    /// The group at the other end, and what the next unit from this end to it costs; no cost, where none may go.
    pub(crate) fn leaving(&self, outward: bool) -> (u32, Option<i64>) {
        if outward {
            let price = if self.flow < self.hi {
                Some(self.up)
            } else {
                None
            };
            (self.head, price)
        } else {
            let price = if self.flow > self.lo {
                Some(self.down.saturating_neg())
            } else {
                None
            };
            (self.tail, price)
        }
    }

    /// The group at the other end, and whether a unit may come from it.
    pub(crate) fn arriving(&self, outward: bool) -> (u32, bool) {
        if outward {
            (self.head, self.flow > self.lo)
        } else {
            (self.tail, self.flow < self.hi)
        }
    }
}
