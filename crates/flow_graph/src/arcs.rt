ghost use Rattle.std.specs.Iterator.{YieldsFirst, item_count};
ghost use Rattle.std.specs.Prelude.{◌≡◌, true};
ghost use Rattle.flow_graph.specs.Incidence.{AreLinked, touches_at, last_touching};

use std::marker::Model;

/// A node by its place, counted from 0 in the order of adding.
#[derive(Clone, Copy, Debug, PartialEq, Eq)]
pub struct NodeId(pub u32);

/// An arc by its place, counted from 0 in the order of adding.
#[derive(Clone, Copy, Debug, PartialEq, Eq)]
pub struct ArcId(pub u32);

/// The node that an arc leaves, the node that it enters, and its bounds.
#[derive(Clone, Copy, Debug)]
pub struct Arc {
    pub tail: u32,
    pub head: u32,
    pub lo: i64,
    pub hi: i64,
}

/// The next arc in the list of the node that an arc leaves, and in the list of the node that it enters. The list of a
/// node runs through the arcs that touch it, from the last one added to the first.
#[derive(Clone, Copy, Debug)]
pub(crate) struct Links {
    pub tail: Option<ArcId>,
    pub head: Option<ArcId>,
}

/// The arc after this one in the list of a node that it touches.
fn next_at(arcs: &[Arc], links: &[Links], node: u32, arc: ArcId) -> Option<ArcId>
    requires linked { AreLinked arcs.now links.now }
    requires touches { touches_at node arcs.now arc.0 ≡ true }
    ensures { result ≡ last_touching node arcs.now arc.0 }
{
    let place = arc.0 as usize;
    if arcs[place].tail == node {
        links[place].tail
    } else {
        links[place].head
    }
}

/// The arcs that leave or enter a node: those that are still to come, the last one added first.
#[derive(Drop)]
pub struct Arcs<'a> {
    arcs: &'a [Arc],
    links: &'a [Links],
    node: u32,
    next: Option<ArcId>,
}

impl<'a> Model for Arcs<'a> {
    ghost use Rattle.std.specs.Prelude.{List};
    ghost use Rattle.flow_graph.specs.declared.arcs.ArcId.{ArcId};
    ghost use Rattle.flow_graph.specs.Incidence.{AreAt, touching_below, count_to};

    ghost Value = { List ArcId };

    ghost view = { λ a. touching_below a.node a.arcs.now (count_to a.next) };

    ghost invariant = { λ a. AreAt a.arcs.now a.links.now a.node a.next };
}

impl<'a> Arcs<'a> {
    ghost use Rattle.std.specs.Prelude.{◌≡◌};
    ghost use Rattle.flow_graph.specs.Incidence.{AreAt, touching_below, count_to};

    /// The arcs in the list of a node, from this one on.
    pub(crate) fn from(
        arcs: &'a [Arc],
        links: &'a [Links],
        node: u32,
        next: Option<ArcId>,
    ) -> Arcs<'a>
        requires { AreAt arcs.now links.now node next }
        ensures { result ≡ touching_below node arcs.now (count_to next) }
    {
        Arcs {
            arcs,
            links,
            node,
            next,
        }
    }
}

impl<'a> Iterator for Arcs<'a> {
    type Item = ArcId;

    ghost next_gives = { YieldsFirst (λ rest. rest) };

    ghost remaining = { item_count (λ rest. rest) };

    fn next(&mut self) -> Option<ArcId> {
        let id = self.next?;
        self.next = next_at(self.arcs, self.links, self.node, id);
        Some(id)
    }
}
