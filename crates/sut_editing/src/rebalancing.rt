//! The rows balanced, shown and written down.

ghost use Rattle.std.specs.Prelude.{◌≡◌, ◌≤◌, ◌<◌, OnOk, IfSome, IsSomeAnd};
ghost use Rattle.sut_review.specs.Seats.{seat_of, seats_of};
ghost use Rattle.sut_session.specs.SmallSets.{AfterSmallSet, StaysNear};
ghost use Rattle.sut_session.specs.Standing.{IsAnswerTo};
ghost use Rattle.sut_editing.specs.Reached.{IsRebalanced, kept_in};

use crate::logs::{Log, log_answer};
use crate::reviewing::show_answer;
use flow_residual::Steps;
use no_memory::NoMemory;
use std::alloc::Global;
use std::marker::Brand;
use std::sync::ledger::{Blank, Ledger};
use sut_review::{Panel, Reviewer};
use sut_session::Session;

fn counted<L: Ledger>(alloc: Global, session: &mut Session, blank: Blank) -> Result<(), NoMemory>
    requires name { blank.name ≡ L.name }
    requires parts { blank.parts ≡ L.parts }
    requires some { 0 < L.parts }
    ensures problem { session.new.problem ≡ session.old.problem }
    ensures answer { OnOk result (IsSomeAnd session.new.answer (IsAnswerTo session.new.problem session.new.kept)) }
    ensures near { OnOk result (AfterSmallSet session.old (λ t m d. IfSome session.new.answer (StaysNear session.new.problem t m d))) }
{
    let mut steps = Steps::<L>::new(blank);
    session.rebalance(alloc, &mut steps)
}

// Answers the rows as they are now.
fn answer_rows(alloc: Global, session: &mut Session) -> Result<(), NoMemory>
    ensures problem { session.new.problem ≡ session.old.problem }
    ensures answer { OnOk result (IsSomeAnd session.new.answer (IsAnswerTo session.new.problem session.new.kept)) }
    ensures near { OnOk result (AfterSmallSet session.old (λ t m d. IfSome session.new.answer (StaysNear session.new.problem t m d))) }
{
    counted::<Brand>(alloc, session, Blank::new(1))
}

/// Balances the rows as they are now. The answer is shown to the reviewers and written down.
pub(crate) fn rebalance(
    alloc: Global,
    session: &mut Session,
    panel: &mut Panel,
    log: &mut Log,
    place: Option<u64>,
) -> Result<(), NoMemory>
    requires few { log.old.rebalances ≤ 15 }
    requires shown { panel.old.shown ≤ log.old.rebalances }
    ensures balanced { OnOk result (IsRebalanced place (kept_in session.old (seats_of panel.old.seats.items (λ seat. seat_of (λ b. (⟦<dyn Reviewer as Reviewer>⟧ b.vtable).rule b.value) (λ b. (⟦<dyn Reviewer as Reviewer>⟧ b.vtable).marked b.value) panel.old.shown seat.label.items seat.seen seat.tally seat.object)) log.old) (kept_in session.new (seats_of panel.new.seats.items (λ seat. seat_of (λ b. (⟦<dyn Reviewer as Reviewer>⟧ b.vtable).rule b.value) (λ b. (⟦<dyn Reviewer as Reviewer>⟧ b.vtable).marked b.value) panel.new.shown seat.label.items seat.seen seat.tally seat.object)) log.new)) }
    ensures shown { OnOk result (panel.new.shown ≤ log.new.rebalances) }
{
    answer_rows(alloc, session)?;
    match session.answer() {
        Some(answer) => {
            show_answer(panel, session.problem(), answer);
            log_answer(log, place, session.problem(), answer)?;
            Ok(())
        }
        None => unreachable!(),
    }
}
