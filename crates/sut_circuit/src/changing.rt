//! A circuit that follows a change of one row.

ghost use Rattle.std.specs.Prelude.{◌≡◌, ◌^◌, true, length, pos, neg_ℤ, replicate, IsTrue};
ghost use Rattle.std.specs.List.{list_any};
ghost use Rattle.sut_measures.specs.declared.measures.Measure.TheVariants as measure;
ghost use Rattle.sut_tables.specs.Changes.{row_removed};
ghost use Rattle.sut_tables.specs.LiveRule.{is_live, is_part_of};
ghost use Rattle.sut_tables.specs.ProblemFacts.{ProblemFacts};
ghost use Rattle.sut_tables.specs.Problems.{groups};
ghost use Rattle.sut_tables.specs.RowFacts.{RowFacts};
ghost use Rattle.sut_circuit.specs.IsCircuit.{IsCircuit};
ghost use Rattle.sut_circuit.specs.RowChanges.{ChangesArcOf, row_put};

use crate::circuits::Circuit;
use crate::costs::{RowCost, row_cost};
use crate::growing::WIDE;
use flow_cost::{Either, Free};
use flow_graph::NodeId;
use flow_residual::State;
use sut_measures::{Account, Measure, Total};
use sut_tables::Row;

/// Gives every node the potential 0.
fn clear_potentials(state: &mut State<Account, Measure, RowCost>)
    ensures { state.new ≡ record state.old { potentials = replicate (length state.old.graph.nodes) (pos 0) } }
{
    for n in 0..state.graph().node_count() {
        state.set_potential(NodeId(n), 0);
    }
}

impl Circuit {
    /// Makes this the row of its measure, which is live: the circuit becomes that of the problem in which it is. The flow of
    /// the measure's arc moves to the nearest value within the row's bounds; all other arcs and flows and all potentials
    /// stay.
    pub fn put_row(&mut self, row: &Row)
        requires { (p : ProblemFacts) × IsCircuit p self.old × IsTrue (is_live p row.now.measure) }
        ensures circuit { (p : ProblemFacts) → IsCircuit p self.old → IsTrue (is_live p row.now.measure) → IsCircuit (row_put p row.now) self.new }
        ensures arc { ChangesArcOf self.old self.new row.now.measure row.now.lower row.now.upper }
        ensures potentials { self.new.state.potentials ≡ self.old.state.potentials }
    {
        row.in_range();
        let arc = self.state.graph().arc(row.measure()).unwrap();
        self.state
            .set_arc(arc, row_cost(row), row.lower(), row.upper());
    }

    /// Takes the row of a total away, of whose cells one has a row: the circuit becomes that of the problem without it. All
    /// flows and all other arcs stay, and every potential becomes 0.
    pub fn free_total(&mut self, t: Total)
        requires { (p : ProblemFacts) × IsCircuit p self.old × IsTrue (list_any (λ (r : RowFacts). is_part_of (groups p) r.measure (measure.Total t)) p.rows) }
        ensures circuit { (p : ProblemFacts) → IsCircuit p self.old
            → IsTrue (list_any (λ (r : RowFacts). is_part_of (groups p) r.measure (measure.Total t)) p.rows)
            → IsCircuit (row_removed p (measure.Total t)) self.new }
        ensures arc { ChangesArcOf self.old self.new (measure.Total t) (neg_ℤ (pos (2 ^ 60))) (pos (2 ^ 60)) }
        ensures flows { self.new.state.flows ≡ self.old.state.flows }
        ensures potentials { self.new.state.potentials ≡ replicate (length self.old.accounts.items) (pos 0) }
    {
        let arc = self.state.graph().arc(Measure::Total(t)).unwrap();
        self.state
            .set_arc(arc, Either::Other(Either::Other(Free)), -WIDE, WIDE);
        clear_potentials(&mut self.state);
    }
}
