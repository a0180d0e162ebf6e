//! Small networks against a search over all their circulations.

ghost use Rattle.std.specs.Prelude.{◌≡◌, ◌<◌, ◌*◌, ◌^◌, pos, All, IsTrue, length};
ghost use Rattle.flow_cost.specs.Cost.{IsWithin};

use crate::graphs::{add_arc, add_node};
use crate::spans::assert_spans;
use flow_cost::{Absolute, Band, Either, Square};
use flow_graph::{ArcId, Graph, NodeId};
use flow_residual::{Room, State, Steps};
use flow_solve::{Outcome, solve};
use flow_start::start;
use std::alloc::Global;
use std::marker::Brand;
use std::process::Abort;
use std::sync::ledger::{Blank, Ledger};
use std::test::Fail;

// How the cost of an arc grows with the distance from its target; a band has a width.
#[derive(Clone, Copy)]
enum Penalty {
    Square,
    Absolute,
    Band(u64),
}

// An arc between two nodes, with its bounds and a cost of this target and weight.
#[derive(Clone, Copy)]
struct Link {
    from: u32,
    to: u32,
    lo: i64,
    hi: i64,
    target: i64,
    weight: u32,
    penalty: Penalty,
}

const fn arc(from: u32, to: u32, lo: i64, hi: i64, target: i64, weight: u32) -> Link {
    Link {
        from,
        to,
        lo,
        hi,
        target,
        weight,
        penalty: Penalty::Square,
    }
}

const fn absolute(from: u32, to: u32, lo: i64, hi: i64, target: i64, weight: u32) -> Link {
    Link {
        penalty: Penalty::Absolute,
        ..arc(from, to, lo, hi, target, weight)
    }
}

const fn band(from: u32, to: u32, lo: i64, hi: i64, target: i64, width: u64) -> Link {
    Link {
        penalty: Penalty::Band(width),
        ..arc(from, to, lo, hi, target, 1)
    }
}

// An arc that lets anything through at no cost.
const fn open(from: u32, to: u32) -> Link {
    band(from, to, -FAR, FAR, 0, FAR as u64)
}

const FAR: i64 = 1_000_000_000_000;

type LinkCost = Either<Square, Either<Absolute, Band>>;

// Adds an arc, of the place that it gets as its name.
fn add_link(rt: &impl Abort, graph: &mut Graph<u32, u32>, link: &Link) {
    let place = graph.arc_count();
    let id = Ok(ArcId(place));
    add_arc(rt, graph, (place, link.from, link.to, link.lo, link.hi, id));
}

// The graph of some nodes and these arcs.
fn graph_of(rt: &impl Abort, alloc: Global, nodes: u32, links: &[Link]) -> Graph<u32, u32> {
    let mut graph = Graph::new(alloc);
    for n in 0..nodes {
        add_node(rt, &mut graph, (n, Ok(NodeId(n))));
    }
    for link in links {
        add_link(rt, &mut graph, link);
    }
    graph
}

fn cost_of(link: &Link) -> Option<LinkCost> {
    match link.penalty {
        Penalty::Square => Some(Either::One(Square::new(link.target, link.weight)?)),
        Penalty::Absolute => {
            let cost = Absolute::new(link.target, link.weight)?;
            Some(Either::Other(Either::One(cost)))
        }
        Penalty::Band(width) => {
            let cost = Band::new(link.target, link.weight, i64::try_from(width).ok()?)?;
            Some(Either::Other(Either::Other(cost)))
        }
    }
}

fn costs_of(alloc: Global, links: &[Link]) -> Result<Vec<LinkCost>, Fail> {
    let mut costs = Vec::new(alloc);
    for link in links {
        costs.push(cost_of(link).ok_or("a cost")?)?;
    }
    Ok(costs)
}

fn squared(distance: u64) -> u128
    requires { distance < 4_000_000_000_000 }
    ensures { result < 16 * 10 ^ 24 }
{
    u128::from(distance) * u128::from(distance)
}

// What a distance from the target costs at weight 1.
fn loss(penalty: Penalty, distance: u64) -> u128
    requires { distance < 4_000_000_000_000 }
    ensures { result < 16 * 10 ^ 24 }
{
    match penalty {
        Penalty::Square => squared(distance),
        Penalty::Absolute => u128::from(distance),
        Penalty::Band(width) => squared(distance.saturating_sub(width)),
    }
}

// What a number costs on an arc.
fn cost_at(rt: &impl Abort, link: &Link, x: i64) -> u128 {
    let distance = x.abs_diff(link.target);
    assert!(rt; distance < 4_000_000_000_000);
    assert!(rt; link.weight < 10_000);
    loss(link.penalty, distance) * u128::from(link.weight)
}

// Where the solver begins.
#[derive(Clone, Copy, Debug, PartialEq, Eq)]
enum Begin {
    // The first node has this potential.
    At(i128),
    // The state is started.
    Started,
}

// Moves a state to where the solver begins.
fn move_to(
    rt: &impl Abort,
    alloc: Global,
    state: &mut State<u32, u32, LinkCost>,
    begin: Begin,
) -> Result<(), Fail> {
    match begin {
        Begin::At(potential) => {
            if state.graph().node_count() > 0 {
                assert!(rt; potential >= -1_000_000_000_000_000_000_000_000);
                assert!(rt; potential <= 1_000_000_000_000_000_000_000_000);
                state.set_potential(NodeId(0), potential);
            }
            Ok(())
        }
        Begin::Started => Ok(start(alloc, state)?),
    }
}

// Whether settling at step 1 leaves no node with an excess.
fn leaves_nothing(state: &mut State<u32, u32, LinkCost>) -> bool {
    state.settle_all(1);
    for n in 0..state.graph().node_count() {
        if state.excess(NodeId(n)) != 0 {
            return false;
        }
    }
    true
}

// The cost of the flows that the solver leaves from where it begins, or none after a cut. After a start it has nothing to
// move, where a circulation exists.
fn solved<L: Ledger>(
    rt: &impl Abort,
    alloc: Global,
    nodes: u32,
    links: &[Link],
    begin: Begin,
    blank: Blank,
) -> Result<Option<u128>, Fail>
    requires name { blank.name ≡ L.name }
    requires parts { blank.parts ≡ L.parts }
    requires some { 0 < L.parts }
{
    let graph = graph_of(rt, alloc, nodes, links);
    let costs = costs_of(alloc, links)?;
    assert_spans(rt, &graph);
    assert!(rt; costs.len() == graph.arc_count() as usize);
    let mut state = State::new(alloc, graph, costs)?;
    move_to(rt, alloc, &mut state, begin)?;
    let is_still = leaves_nothing(&mut state);
    let mut room = Room::for_state(alloc, &state)?;
    let mut steps = Steps::<L>::new(blank);
    if solve(&mut state, &mut room, &mut steps) == Outcome::Cut {
        return Ok(None);
    }
    assert!(rt; is_still || begin != Begin::Started);
    let mut sum: u128 = 0;
    for (a, link) in links.iter().enumerate() {
        assert!(rt; a < state.graph().arc_count() as usize);
        let cost = cost_at(rt, link, state.flow(ArcId(a as u32)));
        sum = sum.checked_add(cost).ok_or("a sum")?;
    }
    Ok(Some(sum))
}

fn trial(
    rt: &impl Abort,
    alloc: Global,
    nodes: u32,
    links: &[Link],
    begin: Begin,
) -> Result<Option<u128>, Fail> {
    solved::<Brand>(rt, alloc, nodes, links, begin, Blank::new(1))
}

// Tests what the solver finds for each network, from three potentials and from a start.
fn assert_costs(
    rt: &impl Abort,
    alloc: Global,
    networks: &[(u32, &[Link], Option<u128>)],
) -> Result<(), Fail> {
    for (nodes, links, want) in networks {
        for begin in [
            Begin::At(0),
            Begin::At(1_000_000_000_000_000_000_000_000),
            Begin::At(-1_000_000_000_000_000_000_000_000),
            Begin::Started,
        ] {
            assert_eq!(rt;
                trial(rt, alloc, *nodes, links, begin)?,
                *want,
                "{nodes} nodes from {begin:?}"
            );
        }
    }
    Ok(())
}

// The expected costs were found by going through all circulations.
#[test]
fn small_networks(rt: HostRuntime) -> Result<(), Fail> {
    let networks: [(u32, &[Link], Option<u128>); 14] = [
        (2, &[arc(0, 1, 0, 10, 7, 1), arc(1, 0, 0, 5, 5, 1)], Some(4)),
        (2, &[arc(0, 1, 0, 5, 7, 1), arc(1, 0, 6, 8, 5, 1)], None),
        (
            2,
            &[
                arc(0, 1, 0, 4, 3, 1),
                arc(0, 1, 0, 4, 1, 2),
                arc(1, 0, 0, 9, 9, 1),
                arc(1, 1, -2, 2, 5, 3),
            ],
            Some(39),
        ),
        (1, &[arc(0, 0, -3, 3, 9, 2)], Some(72)),
        (
            3,
            &[
                arc(0, 2, 0, 0, -5, 3),
                arc(2, 0, 1, 1, -6, 1),
                arc(0, 0, 0, 3, -5, 4),
            ],
            None,
        ),
        (
            2,
            &[
                arc(0, 1, -3, -2, -6, 2),
                arc(0, 1, -3, 1, 0, 2),
                arc(1, 0, 1, 1, -5, 2),
                arc(0, 0, -1, -1, 3, 2),
                arc(1, 1, 0, 4, 1, 4),
            ],
            None,
        ),
        (
            3,
            &[
                arc(2, 0, -2, -1, -5, 3),
                arc(1, 2, 1, 4, 1, 3),
                arc(0, 2, 1, 1, 0, 2),
                arc(1, 1, -1, 0, -6, 1),
            ],
            None,
        ),
        (
            4,
            &[
                arc(2, 3, -1, 1, 3, 4),
                arc(2, 3, -3, -3, 5, 1),
                arc(3, 2, -3, -1, 5, 4),
                arc(3, 2, -1, -1, -4, 1),
                arc(1, 2, 0, 0, -4, 2),
            ],
            Some(265),
        ),
        (
            3,
            &[
                arc(0, 0, -1, 2, 1, 4),
                arc(1, 0, 0, 3, -4, 1),
                arc(1, 2, -1, 1, -4, 1),
                arc(1, 0, -2, 2, 5, 1),
                arc(2, 0, 1, 3, 5, 3),
            ],
            Some(125),
        ),
        (
            4,
            &[
                arc(1, 2, -2, 0, 4, 2),
                arc(1, 3, 1, 2, 5, 2),
                arc(3, 2, -2, 2, 5, 1),
                arc(3, 2, -3, -1, -3, 3),
            ],
            Some(103),
        ),
        (
            3,
            &[
                arc(0, 0, -1, 1, -5, 2),
                arc(1, 0, 0, 1, 1, 1),
                arc(2, 0, 0, 2, 4, 1),
                arc(1, 0, 0, 1, 0, 3),
                arc(1, 1, -3, 0, 5, 1),
            ],
            Some(74),
        ),
        (
            2,
            &[
                arc(1, 0, -1, 0, 6, 3),
                arc(1, 0, -1, 3, -6, 3),
                arc(1, 0, 0, 4, 2, 2),
            ],
            Some(185),
        ),
        (
            3,
            &[
                arc(1, 0, -3, 0, 4, 2),
                arc(2, 1, -2, 1, -1, 4),
                arc(1, 0, -2, 0, 5, 3),
            ],
            Some(111),
        ),
        (
            4,
            &[
                arc(2, 0, 1, 4, -2, 1),
                arc(0, 2, -2, 1, -6, 1),
                arc(1, 0, -1, -1, -2, 1),
                arc(2, 3, 0, 0, -2, 2),
                arc(1, 0, -3, 1, -4, 3),
            ],
            Some(142),
        ),
    ];
    assert_costs(&rt, rt.alloc(), &networks)
}

// The expected costs were found by a search over the flows of the arcs outside a spanning tree, one after another: the least
// over the later ones is convex in each. The excesses here are large: most are far above 4,096.
#[test]
fn large_networks(rt: HostRuntime) -> Result<(), Fail> {
    let networks: [(u32, &[Link], Option<u128>); 10] = [
        (
            2,
            &[arc(0, 1, 0, FAR, FAR, 1), arc(1, 0, 0, FAR, 0, 4)],
            Some(800_000_000_000_000_000_000_000),
        ),
        (
            2,
            &[
                arc(0, 1, 0, FAR, FAR, 1),
                arc(1, 0, -FAR, 499_999_999_999, -FAR, 3),
                arc(1, 0, 0, FAR, 123_456_789, 2),
            ],
            Some(2_199_703_721_996_294_500_228_626),
        ),
        (
            3,
            &[
                arc(0, 1, 0, FAR, FAR, 1),
                arc(1, 2, 0, 5_000_000_000, 3_000_000_000, 7),
                arc(2, 0, -FAR, FAR, -FAR, 2),
                arc(1, 0, 0, FAR, 999_999, 1),
            ],
            Some(2_500_062_000_001_499_999_000_001),
        ),
        // Two nodes with an excess, and one way out: just wide enough, and one unit too narrow.
        (
            3,
            &[
                arc(0, 1, 5_000_000_000, 5_000_000_000, 0, 1),
                arc(0, 2, 7_000_000_000, 7_000_000_000, 0, 1),
                arc(1, 2, -FAR, FAR, 0, 1),
                arc(2, 0, 0, 12_000_000_000, 0, 1),
            ],
            Some(243_000_000_000_000_000_000),
        ),
        (
            3,
            &[
                arc(0, 1, 5_000_000_000, 5_000_000_000, 0, 1),
                arc(0, 2, 7_000_000_000, 7_000_000_000, 0, 1),
                arc(1, 2, -FAR, FAR, 0, 1),
                arc(2, 0, 0, 11_999_999_999, 0, 1),
            ],
            None,
        ),
        // No arc has room for the first step of 1,024.
        (
            2,
            &[
                arc(0, 1, 5000, 5000, 0, 1),
                arc(1, 0, 0, 1000, 0, 1),
                arc(1, 0, 0, 1000, 0, 1),
                arc(1, 0, 0, 1000, 0, 1),
                arc(1, 0, 0, 1000, 0, 1),
                arc(1, 0, 0, 1000, 0, 1),
            ],
            Some(30_000_000),
        ),
        (
            2,
            &[
                arc(0, 1, 5000, 5000, 0, 1),
                arc(1, 0, 0, 999, 0, 1),
                arc(1, 0, 0, 999, 0, 1),
                arc(1, 0, 0, 999, 0, 1),
                arc(1, 0, 0, 999, 0, 1),
                arc(1, 0, 0, 999, 0, 1),
            ],
            None,
        ),
        (
            4,
            &[
                arc(0, 1, 3_000_000_000, 3_000_000_000, 0, 1),
                arc(0, 2, 3_000_000_000, 3_000_000_000, 0, 1),
                arc(1, 2, -FAR, FAR, 5, 1),
                arc(2, 3, 0, 8_000_000_000, 0, 3),
                arc(3, 0, 0, 6_000_000_000, FAR, 1),
            ],
            Some(988_170_999_999_970_000_000_025),
        ),
        (
            4,
            &[
                arc(0, 1, 3_000_000_000, 3_000_000_000, 0, 1),
                arc(0, 2, 3_000_000_000, 3_000_000_000, 0, 1),
                arc(1, 2, -FAR, FAR, 5, 1),
                arc(2, 3, 0, 8_000_000_000, 0, 3),
                arc(3, 0, 0, 5_999_999_993, FAR, 1),
            ],
            None,
        ),
        (
            3,
            &[
                arc(0, 1, -FAR, FAR, 999_999_999_999, 9999),
                arc(1, 2, -FAR, FAR, 999_999_999_997, 1),
                arc(2, 0, -FAR, FAR, -999_999_999_999, 2),
                arc(0, 2, -FAR, FAR, 0, 3),
            ],
            Some(4_799_424_069_102_106_787_187_622),
        ),
    ];
    assert_costs(&rt, rt.alloc(), &networks)
}

// The expected costs were found by going through all circulations, after the open arcs had joined their ends into one node.
// Most of these networks have several least circulations.
#[test]
fn mixed_penalties(rt: HostRuntime) -> Result<(), Fail> {
    let networks: [(u32, &[Link], Option<u128>); 21] = [
        (
            4,
            &[
                band(1, 0, -2, -2, 5, 1),
                absolute(0, 3, -1, 5, 1, 3),
                absolute(3, 2, 1, 7, -5, 3),
                arc(2, 3, -2, 2, -5, 3),
                open(3, 1),
                absolute(3, 0, 0, 6, -1, 1),
                band(3, 0, -1, 4, -5, 2),
                absolute(0, 2, 2, 5, 5, 2),
            ],
            None,
        ),
        (
            4,
            &[
                open(3, 2),
                open(0, 1),
                absolute(1, 3, -4, -3, 0, 3),
                absolute(2, 1, -2, 3, -1, 2),
            ],
            None,
        ),
        (
            3,
            &[
                band(0, 2, -1, 5, -4, 1),
                absolute(1, 2, 0, 2, 5, 3),
                band(2, 0, 2, 8, 6, 2),
                absolute(2, 1, -1, 4, -6, 1),
            ],
            Some(46),
        ),
        (
            2,
            &[
                open(1, 0),
                absolute(1, 0, -3, 1, -4, 3),
                absolute(0, 1, 1, 7, 2, 1),
                absolute(0, 1, 2, 6, 4, 1),
                band(0, 0, -3, -2, 1, 1),
            ],
            Some(7),
        ),
        (
            4,
            &[
                arc(3, 0, -3, -2, -4, 3),
                absolute(3, 1, -1, 4, -4, 3),
                band(1, 0, 1, 1, 5, 1),
                open(1, 3),
            ],
            None,
        ),
        (
            3,
            &[
                absolute(1, 0, 0, 2, 2, 2),
                band(0, 0, -1, 4, 2, 1),
                open(1, 2),
            ],
            Some(4),
        ),
        (
            6,
            &[
                absolute(3, 1, -3, -2, 1, 3),
                band(5, 0, 0, 4, 1, 1),
                open(0, 4),
                open(0, 4),
                absolute(0, 3, 0, 4, 5, 1),
                band(3, 4, -3, 2, -2, 1),
            ],
            None,
        ),
        (
            6,
            &[
                band(3, 1, -2, -2, -3, 2),
                absolute(3, 0, -4, 2, 5, 1),
                arc(1, 2, -3, 2, 0, 2),
                open(1, 5),
                arc(3, 4, -2, 0, 5, 1),
                absolute(0, 2, -4, -1, 2, 3),
                open(2, 4),
            ],
            None,
        ),
        (
            4,
            &[
                open(1, 0),
                absolute(0, 2, -2, 2, -6, 3),
                absolute(1, 0, -3, -2, 4, 1),
                arc(1, 2, -2, 0, -2, 1),
            ],
            Some(28),
        ),
        (
            6,
            &[
                open(2, 5),
                open(5, 4),
                absolute(5, 4, 2, 6, 2, 3),
                band(4, 0, 1, 6, 4, 2),
                open(1, 0),
                arc(2, 0, -4, 1, 4, 3),
                open(5, 1),
                band(0, 5, -4, 1, -5, 1),
                absolute(5, 0, -3, 2, -3, 2),
            ],
            Some(27),
        ),
        (
            2,
            &[
                open(0, 1),
                arc(1, 1, 1, 1, -4, 1),
                open(0, 1),
                arc(1, 1, -4, -4, -2, 1),
                open(1, 1),
                absolute(0, 1, 2, 8, -5, 1),
            ],
            Some(36),
        ),
        (
            3,
            &[absolute(2, 1, 0, 1, -1, 2), open(1, 2), open(0, 2)],
            Some(2),
        ),
        (
            6,
            &[
                band(5, 3, -2, 3, -4, 1),
                absolute(1, 2, -4, -4, 1, 1),
                open(2, 1),
                band(3, 2, -1, -1, 3, 2),
                band(5, 1, 0, 3, -3, 1),
                open(3, 1),
                open(4, 1),
            ],
            Some(22),
        ),
        (
            4,
            &[
                absolute(0, 2, -2, 2, -3, 1),
                absolute(3, 1, -3, 2, 1, 1),
                absolute(0, 1, -1, 5, -6, 1),
                absolute(2, 3, -1, 0, -6, 1),
                open(0, 1),
                open(0, 1),
            ],
            Some(14),
        ),
        (
            3,
            &[
                absolute(2, 1, -3, 1, -5, 1),
                band(2, 0, -1, 4, -6, 1),
                absolute(1, 0, -1, 0, -5, 1),
                absolute(0, 2, 1, 6, 5, 1),
                absolute(1, 2, 2, 6, -2, 1),
                band(0, 2, -3, 3, -3, 2),
                open(0, 2),
            ],
            Some(30),
        ),
        (
            4,
            &[
                absolute(0, 1, -3, -1, -1, 2),
                absolute(2, 0, -4, 1, -1, 3),
                open(3, 2),
                band(3, 0, -2, 1, -6, 2),
                band(1, 0, -1, -1, -3, 1),
                absolute(2, 0, -1, 4, 1, 3),
                absolute(2, 1, -3, 2, 1, 1),
            ],
            Some(10),
        ),
        (
            2,
            &[
                absolute(0, 1, -1, 1, -5, 1),
                absolute(1, 0, -4, -1, 5, 1),
                band(1, 0, 2, 5, 3, 2),
            ],
            Some(12),
        ),
        (
            2,
            &[
                open(0, 1),
                open(0, 1),
                open(0, 1),
                band(0, 1, 2, 3, 6, 2),
                absolute(0, 1, -1, 4, -6, 1),
            ],
            Some(6),
        ),
        (
            4,
            &[
                absolute(3, 2, 0, 2, -2, 1),
                absolute(2, 0, -2, 2, -3, 2),
                arc(3, 1, -2, 3, -1, 1),
                arc(2, 3, 2, 8, -2, 1),
                absolute(1, 2, 0, 5, -1, 3),
            ],
            Some(30),
        ),
        (
            2,
            &[
                absolute(1, 0, -4, 1, 1, 1),
                absolute(1, 0, -4, 0, 6, 1),
                absolute(0, 1, 2, 6, 1, 3),
                absolute(0, 1, 0, 2, 6, 3),
                band(0, 1, -4, -2, 1, 2),
                arc(0, 1, 0, 0, -6, 1),
            ],
            Some(61),
        ),
        (
            6,
            &[
                band(4, 2, -1, 5, 3, 1),
                arc(1, 2, -3, 0, -6, 1),
                arc(0, 4, -1, 5, 3, 2),
                band(0, 5, 0, 1, -5, 2),
                absolute(5, 4, -3, -1, 5, 1),
                arc(1, 0, -4, 0, -6, 1),
                arc(4, 5, -1, -1, -4, 1),
                band(0, 1, 0, 3, -5, 2),
                absolute(3, 2, -2, 1, -4, 2),
            ],
            Some(135),
        ),
    ];
    assert_costs(&rt, rt.alloc(), &networks)
}

#[test]
fn no_nodes(rt: HostRuntime) -> Result<(), Fail> {
    assert_eq!(rt; trial(&rt, rt.alloc(), 0, &[], Begin::At(0))?, Some(0));
    Ok(())
}
