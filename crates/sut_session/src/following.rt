//! How a network follows an edit.

ghost use Rattle.std.specs.Prelude.{◌≡◌, Ok, IfSome, IsTrue, OnSome};
ghost use Rattle.std.specs.List.{list_any};
ghost use Rattle.sut_classes.specs.Groups.{groups_of};
ghost use Rattle.sut_measures.specs.Fits.{fits};
ghost use Rattle.sut_measures.specs.declared.measures.Measure.TheVariants as measure;
ghost use Rattle.sut_tables.specs.Changes.{row_removed};
ghost use Rattle.sut_tables.specs.LiveRule.{is_live, is_part_of};
ghost use Rattle.sut_tables.specs.ProblemFacts.{ProblemFacts};
ghost use Rattle.sut_tables.specs.Problems.{groups};
ghost use Rattle.sut_tables.specs.RowFacts.{RowFacts};
ghost use Rattle.sut_circuit.specs.RowChanges.{row_put};
ghost use Rattle.sut_edits.specs.Edits.{edited};
ghost use Rattle.sut_edits.specs.EditRules.{FitsClasses};
ghost use Rattle.sut_session.specs.SmallSets.{HasBounds, KeepsBounds};
ghost use Rattle.sut_session.specs.SessionView.{IsNetworkOf, kept_of, numbers_of};

use crate::networks::Network;
use sut_classes::Classes;
use sut_edits::Edit;
use sut_measures::{Measure, Total, adds_to};
use sut_tables::{Problem, Row};

/// Whether the measure is a cell that stands in the total's sum.
fn is_part(classes: &Classes, m: Measure, t: Total) -> bool
    requires measure { IsTrue (fits classes.now m) }
    requires total { IsTrue (fits classes.now (measure.Total t)) }
    ensures { result ≡ is_part_of (groups_of classes.now) m (measure.Total t) }
{
    match m {
        Measure::Cell(cell) => adds_to(classes, cell, t) != 0,
        Measure::Total(_) => false,
    }
}

/// Whether a cell that stands in the total's sum has a row.
fn has_part(p: &Problem, t: Total) -> bool
    requires { IsTrue (fits p.now.classes (measure.Total t)) }
    ensures { result ≡ list_any (λ (r : RowFacts). is_part_of (groups p.now) r.measure (measure.Total t)) p.now.rows }
{
    p.kept();
    for row in p.rows() {
        if is_part(p.classes(), row.measure(), t) {
            return true;
        }
    }
    false
}

/// Makes this the row of its measure, which is live.
fn put(n: &mut Network, row: &Row)
    requires { (q : ProblemFacts) × IsNetworkOf q n.old × IsTrue (is_live q row.now.measure) }
    ensures network { (q : ProblemFacts) → IsNetworkOf q n.old → IsTrue (is_live q row.now.measure) → IsNetworkOf (row_put q row.now) n.new }
    ensures kept { (q : ProblemFacts) → IsNetworkOf q n.old → HasBounds q row.now → numbers_of n.new ≡ numbers_of n.old }
{
    // Each flow lies within the bounds of its arc.
    n.circuit.state.graph();
    n.circuit.put_row(row);
}

/// With the row of a measure that had none; none where the measure was not live.
fn added(mut n: Network, row: &Row) -> Option<Network>
    requires { (q : ProblemFacts) × IsNetworkOf q n }
    ensures { (q : ProblemFacts) → IsNetworkOf q n → IfSome result (IsNetworkOf (row_put q row.now)) }
{
    if n.circuit.state.graph().arc(row.measure()).is_none() {
        return None;
    }
    put(&mut n, row);
    Some(n)
}

/// Without the row of a measure, for the problem that has it no more; none where the measure is no longer live.
fn dropped(mut n: Network, p: &Problem, m: Measure) -> Option<Network>
    requires before { (q : ProblemFacts) × IsNetworkOf q n × (p.now ≡ row_removed q m) }
    requires fits { IsTrue (fits p.now.classes m) }
    ensures { IfSome result (IsNetworkOf p.now) }
{
    let Measure::Total(t) = m else {
        return None;
    };
    if !has_part(p, t) {
        return None;
    }
    n.circuit.free_total(t);
    Some(n)
}

/// The network of a problem after the edit that led to it, or none where the edit changed which measures are live.
fn followed(mut n: Network, p: &Problem, edit: &Edit) -> Option<Network>
    requires before { (q : ProblemFacts) × IsNetworkOf q n × (edited q edit.now ≡ Ok p.now) }
    requires fits { FitsClasses p.now.classes edit.now }
    ensures network { IfSome result (IsNetworkOf p.now) }
    ensures kept { (q : ProblemFacts) → IsNetworkOf q n → KeepsBounds q edit.now → kept_of result ≡ kept_of (Some n) }
{
    match edit {
        Edit::Set(row) => {
            put(&mut n, row);
            Some(n)
        }
        Edit::Add(row) => added(n, row),
        Edit::Drop(m) => dropped(n, p, *m),
        Edit::Balance | Edit::Dismiss(_) => Some(n),
    }
}

/// Follows an edit that led to a problem, or drops the network where the edit changed which measures are live.
pub(crate) fn follow(network: &mut Option<Network>, p: &Problem, edit: &Edit)
    requires before { IfSome network.old (λ n. (q : ProblemFacts) × IsNetworkOf q n × (edited q edit.now ≡ Ok p.now)) }
    requires fits { FitsClasses p.now.classes edit.now }
    ensures network { IfSome network.new (IsNetworkOf p.now) }
    ensures kept { (q : ProblemFacts) → IfSome network.old (IsNetworkOf q) → KeepsBounds q edit.now → kept_of network.new ≡ kept_of network.old }
{
    if let Some(n) = network.take() {
        *network = followed(n, p, edit);
    }
}
