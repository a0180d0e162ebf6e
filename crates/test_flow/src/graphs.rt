//! What graphs take, and what they refuse.

use flow_graph::{ArcId, Graph, GraphFault, NodeId};
use std::alloc::AllocError;
use std::process::Abort;
use std::test::Fail;

/// A node's name, and what adding it gives.
pub(crate) type NodeCase = (u32, Result<NodeId, GraphFault>);

/// An arc's name, ends and bounds, and what adding it gives.
pub(crate) type ArcCase = (u32, u32, u32, i64, i64, Result<ArcId, GraphFault>);

/// Tests what adding a node gives.
pub(crate) fn add_node(rt: &impl Abort, graph: &mut Graph<u32, u32>, (name, want): NodeCase) {
    assert_eq!(rt; graph.add_node(name), want, "node {name}");
}

/// Tests what adding an arc gives.
pub(crate) fn add_arc(
    rt: &impl Abort,
    graph: &mut Graph<u32, u32>,
    (name, from, to, lo, hi, want): ArcCase,
) {
    assert!(rt; lo >= -(1 << 60));
    assert!(rt; hi <= 1 << 60);
    assert_eq!(rt; graph.add_arc(name, from, to, lo, hi), want, "arc {name}");
}

/// Adds nodes.
pub(crate) fn add_nodes(rt: &impl Abort, graph: &mut Graph<u32, u32>, cases: &[NodeCase]) {
    for case in cases {
        add_node(rt, graph, *case);
    }
}

/// Adds arcs.
pub(crate) fn add_arcs(rt: &impl Abort, graph: &mut Graph<u32, u32>, cases: &[ArcCase]) {
    for case in cases {
        add_arc(rt, graph, *case);
    }
}

/// The arcs at a node in ascending order.
fn arcs_at(
    rt: &impl Abort,
    graph: &Graph<u32, u32>,
    node: u32,
    mut places: Vec<u32>,
) -> Result<Vec<u32>, AllocError> {
    assert!(rt; node < graph.node_count());
    for arc in graph.arcs_at(NodeId(node)) {
        places.push(arc.0)?;
    }
    places.sort()?;
    Ok(places)
}

/// The name of an arc, the names of its ends, and its bounds.
fn arc_of(rt: &impl Abort, graph: &Graph<u32, u32>, place: u32) -> (u32, u32, u32, i64, i64) {
    assert!(rt; place < graph.arc_count());
    let (tail, head) = graph.ends(ArcId(place));
    let (lo, hi) = graph.bounds(ArcId(place));
    let name = graph.arc_name(ArcId(place));
    (name, graph.node_name(tail), graph.node_name(head), lo, hi)
}

#[test]
fn adds_and_shows(rt: HostRuntime) -> Result<(), Fail> {
    use GraphFault::{Crossed, Duplicate, UnknownNode};
    let mut graph: Graph<u32, u32> = Graph::new(rt.alloc());
    add_nodes(&rt, &mut graph, &[(7, Ok(NodeId(0))), (7, Err(Duplicate))]);
    add_arcs(&rt, &mut graph, &[(1, 7, 8, 1, 0, Err(UnknownNode))]);
    assert_eq!(rt; graph.node_count(), 1);
    add_nodes(&rt, &mut graph, &[(8, Ok(NodeId(1))), (9, Ok(NodeId(2)))]);
    let arcs = [
        (1, 7, 8, 1, 0, Err(Crossed)),
        (1, 7, 8, -(1 << 60), 1 << 60, Ok(ArcId(0))),
        (1, 7, 6, 1, 0, Err(Duplicate)),
        (2, 7, 8, 0, 0, Ok(ArcId(1))),
        (3, 8, 8, 0, 5, Ok(ArcId(2))),
        (4, 8, 7, 2, 3, Ok(ArcId(3))),
    ];
    add_arcs(&rt, &mut graph, &arcs);
    for (node, want) in [
        (0, [0, 1, 3].as_slice()),
        (1, [0, 1, 2, 3].as_slice()),
        (2, [].as_slice()),
    ] {
        let places = arcs_at(&rt, &graph, node, Vec::new(rt.alloc()))?;
        assert_eq!(rt; places.as_slice(), want, "at {node}");
    }
    assert!(rt; graph.arc_count() == 4);
    graph.set_bounds(ArcId(2), -1, 4);
    for (place, want) in [
        (0, (1, 7, 8, -(1 << 60), 1 << 60)),
        (2, (3, 8, 8, -1, 4)),
        (3, (4, 8, 7, 2, 3)),
    ] {
        assert_eq!(rt; arc_of(&rt, &graph, place), want, "arc at {place}");
    }
    Ok(())
}

#[test]
fn finds_by_name(rt: HostRuntime) {
    let mut graph: Graph<u32, u32> = Graph::new(rt.alloc());
    add_nodes(&rt, &mut graph, &[(7, Ok(NodeId(0))), (8, Ok(NodeId(1)))]);
    add_arcs(&rt, &mut graph, &[(5, 8, 7, 0, 1, Ok(ArcId(0)))]);
    assert_eq!(rt; graph.node(8), Some(NodeId(1)));
    assert_eq!(rt; graph.node(5), None);
    assert_eq!(rt; graph.arc(5), Some(ArcId(0)));
    assert_eq!(rt; graph.arc(8), None);
}

#[test]
fn is_full_at_its_limits(rt: HostRuntime) {
    let mut graph: Graph<u32, u32> = Graph::new(rt.alloc());
    for node in 0..262_144 {
        add_node(&rt, &mut graph, (node, Ok(NodeId(node))));
    }
    let faults = [
        (0, Err(GraphFault::Duplicate)),
        (262_144, Err(GraphFault::Full)),
    ];
    add_nodes(&rt, &mut graph, &faults);
    for arc in 0..524_288 {
        add_arc(
            &rt,
            &mut graph,
            (arc, arc % 262_144, 0, 0, 1, Ok(ArcId(arc))),
        );
    }
    let faults = [
        (524_288, 0, 0, 1, 0, Err(GraphFault::Crossed)),
        (524_288, 0, 0, 0, 1, Err(GraphFault::Full)),
    ];
    add_arcs(&rt, &mut graph, &faults);
}
