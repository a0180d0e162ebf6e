//! A run of edits, from the rows as they were to the last answer.

ghost use Rattle.std.specs.Prelude.{◌≡◌, ◌≤◌, ◌+◌, List, All, Err, Ok, IfErr, IfOk, OnOk, IsSome, IsSomeAnd, Some, true, map, option_map};
ghost use Rattle.sut_records.specs.FirstFault.{and_then};
ghost use Rattle.sut_settings.specs.SettingsFacts.{SettingsFacts};
ghost use Rattle.sut_source.specs.SourceText.{HasGrade};
ghost use Rattle.sut_edits.specs.EditRules.{FitsClasses, IsGraded};
ghost use Rattle.sut_edits.specs.EditsFile.{balances_in};
ghost use Rattle.sut_edits.specs.declared.faults.EditsFault.{EditsFault};
ghost use Rattle.sut_review.specs.Seats.{SeatFacts, new_seat, seat_of, seats_of};
ghost use Rattle.sut_editing.specs.Moments.{IfRefused, Stage, lines_taken, moments_of, stage_at_end, standing_labels};
ghost use Rattle.sut_editing.specs.Events.{Event};
ghost use Rattle.sut_editing.specs.Reached.{IsReached, Reaches, kept_in};
ghost use Rattle.sut_editing.specs.EditedRows.{IsEdited, are_some, review_of};

use crate::faults::EditingFault;
use crate::logs::{Log, new_log};
use crate::rebalancing::rebalance;
use crate::taking::take_lines;
use no_memory::NoMemory;
use std::alloc::Global;
use sut_cert::Answer;
use sut_edits::EditLine;
use sut_review::{Panel, Reviewer};
use sut_session::Session;
use sut_tables::Problem;

/// What came of a run of edits.
#[derive(Drop)]
pub struct Edited {
    /// The rows after all edits.
    pub problem: Problem,
    /// Their answer.
    pub answer: Answer,
    /// `trail.csv`.
    pub trail: Vec<u8>,
    /// A printed line for each rebalance.
    pub lines: Vec<u8>,
    /// `review.csv`, where reviewers were handed in.
    pub review: Option<Vec<u8>>,
}

/// What a run of edits has written.
#[derive(Drop)]
struct Written {
    log: Log,
    review: Option<Vec<u8>>,
}

// Balances the rows once more where the last line did not.
fn balance_at_end(
    alloc: Global,
    session: &mut Session,
    panel: &mut Panel,
    log: &mut Log,
) -> Result<(), NoMemory>
    requires few { log.old.rebalances ≤ 15 }
    requires shown { panel.old.shown ≤ log.old.rebalances }
    ensures ended { OnOk result ((first : List SeatFacts) (stage : Stage) (events : List Event) → IsReached first stage events (kept_in session.old (seats_of panel.old.seats.items (λ seat. seat_of (λ b. (⟦<dyn Reviewer as Reviewer>⟧ b.vtable).rule b.value) (λ b. (⟦<dyn Reviewer as Reviewer>⟧ b.vtable).marked b.value) panel.old.shown seat.label.items seat.seen seat.tally seat.object)) log.old) → Reaches {F = EditsFault} first (Ok (stage_at_end stage)) (kept_in session.new (seats_of panel.new.seats.items (λ seat. seat_of (λ b. (⟦<dyn Reviewer as Reviewer>⟧ b.vtable).rule b.value) (λ b. (⟦<dyn Reviewer as Reviewer>⟧ b.vtable).marked b.value) panel.new.shown seat.label.items seat.seen seat.tally seat.object)) log.new)) }
    ensures marked { OnOk result (log.new.marked ≡ true) }
    ensures problem { OnOk result (session.new.problem ≡ session.old.problem) }
{
    if log.marked {
        Ok(())
    } else {
        rebalance(alloc, session, panel, log, None)?;
        Ok(())
    }
}

// Takes the edits of lines in order, and balances the rows at the end.
fn take_all(
    alloc: Global,
    session: &mut Session,
    panel: &mut Panel,
    log: &mut Log,
    lines: &[EditLine],
) -> Result<(), EditingFault>
    requires fits { All (λ l. FitsClasses session.old.problem.classes l.edit) lines.now }
    requires few { log.old.rebalances + balances_in lines.now ≤ 15 }
    requires shown { panel.old.shown ≤ log.old.rebalances }
    ensures taken { OnOk result ((first : List SeatFacts) (stage : Stage) (events : List Event) → IsReached first stage events (kept_in session.old (seats_of panel.old.seats.items (λ seat. seat_of (λ b. (⟦<dyn Reviewer as Reviewer>⟧ b.vtable).rule b.value) (λ b. (⟦<dyn Reviewer as Reviewer>⟧ b.vtable).marked b.value) panel.old.shown seat.label.items seat.seen seat.tally seat.object)) log.old) → Reaches first (and_then (lines_taken lines.now stage) (λ s. Ok (stage_at_end s))) (kept_in session.new (seats_of panel.new.seats.items (λ seat. seat_of (λ b. (⟦<dyn Reviewer as Reviewer>⟧ b.vtable).rule b.value) (λ b. (⟦<dyn Reviewer as Reviewer>⟧ b.vtable).marked b.value) panel.new.shown seat.label.items seat.seen seat.tally seat.object)) log.new)) }
    ensures refused { IfErr result (λ fault. IfRefused fault (λ f. (first : List SeatFacts) (stage : Stage) (events : List Event) → IsReached first stage events (kept_in session.old (seats_of panel.old.seats.items (λ seat. seat_of (λ b. (⟦<dyn Reviewer as Reviewer>⟧ b.vtable).rule b.value) (λ b. (⟦<dyn Reviewer as Reviewer>⟧ b.vtable).marked b.value) panel.old.shown seat.label.items seat.seen seat.tally seat.object)) log.old) → lines_taken lines.now stage ≡ Err f)) }
    ensures marked { OnOk result (log.new.marked ≡ true) }
    ensures graded { OnOk result ((s : SettingsFacts) → All (λ l. IsGraded s l.edit) lines.now → All (HasGrade s) session.old.problem.rows → All (HasGrade s) session.new.problem.rows) }
{
    match take_lines(alloc, session, panel, log, lines) {
        Ok(()) => match balance_at_end(alloc, session, panel, log) {
            Ok(()) => Ok(()),
            Err(_) => Err(EditingFault::NoMemory),
        },
        Err(fault) => Err(fault),
    }
}

// The text of the review, where reviewers were handed in.
fn review_of(alloc: Global, panel: &Panel, reviewed: bool) -> Result<Option<Vec<u8>>, NoMemory>
    requires { reviewed ≡ are_some (seats_of panel.now.seats.items (λ seat. seat_of (λ b. (⟦<dyn Reviewer as Reviewer>⟧ b.vtable).rule b.value) (λ b. (⟦<dyn Reviewer as Reviewer>⟧ b.vtable).marked b.value) panel.now.shown seat.label.items seat.seen seat.tally seat.object)) }
    ensures { IfOk result (λ review. option_map (λ v. v.items) review ≡ review_of (seats_of panel.now.seats.items (λ seat. seat_of (λ b. (⟦<dyn Reviewer as Reviewer>⟧ b.vtable).rule b.value) (λ b. (⟦<dyn Reviewer as Reviewer>⟧ b.vtable).marked b.value) panel.now.shown seat.label.items seat.seen seat.tally seat.object))) }
{
    if reviewed {
        let text = panel.text(alloc)?;
        Ok(Some(text))
    } else {
        Ok(None)
    }
}

// Takes the edits before the reviewers, and writes down what comes of them.
fn edit_before(
    alloc: Global,
    session: &mut Session,
    panel: &mut Panel,
    lines: &[EditLine],
    reviewed: bool,
) -> Result<Written, EditingFault>
    requires fits { All (λ l. FitsClasses session.old.problem.classes l.edit) lines.now }
    requires few { balances_in lines.now ≤ 15 }
    requires shown { panel.old.shown ≡ 0 }
    requires reviewed { reviewed ≡ are_some (seats_of panel.old.seats.items (λ seat. seat_of (λ b. (⟦<dyn Reviewer as Reviewer>⟧ b.vtable).rule b.value) (λ b. (⟦<dyn Reviewer as Reviewer>⟧ b.vtable).marked b.value) panel.old.shown seat.label.items seat.seen seat.tally seat.object)) }
    ensures edited { IfOk result (λ w. IsSomeAnd session.new.answer (λ a. IsEdited (seats_of panel.old.seats.items (λ seat. seat_of (λ b. (⟦<dyn Reviewer as Reviewer>⟧ b.vtable).rule b.value) (λ b. (⟦<dyn Reviewer as Reviewer>⟧ b.vtable).marked b.value) panel.old.shown seat.label.items seat.seen seat.tally seat.object)) session.old.problem lines.now session.new.problem a w.log.trail.items w.log.lines.items (option_map (λ v. v.items) w.review))) }
    ensures refused { IfErr result (λ fault. IfRefused fault (λ f. moments_of (standing_labels (seats_of panel.old.seats.items (λ seat. seat_of (λ b. (⟦<dyn Reviewer as Reviewer>⟧ b.vtable).rule b.value) (λ b. (⟦<dyn Reviewer as Reviewer>⟧ b.vtable).marked b.value) panel.old.shown seat.label.items seat.seen seat.tally seat.object))) session.old.problem lines.now ≡ Err f)) }
    ensures graded { OnOk result ((s : SettingsFacts) → All (λ l. IsGraded s l.edit) lines.now → All (HasGrade s) session.old.problem.rows → All (HasGrade s) session.new.problem.rows) }
{
    let mut log = match new_log(alloc) {
        Ok(log) => log,
        Err(_) => return Err(EditingFault::NoMemory),
    };
    match take_all(alloc, session, panel, &mut log, lines) {
        Ok(()) => {}
        Err(fault) => return Err(fault),
    }
    match review_of(alloc, panel, reviewed) {
        Ok(review) => Ok(Written { log, review }),
        Err(_) => Err(EditingFault::NoMemory),
    }
}

fn closed(session: Session, written: Written) -> Edited
    requires { IsSome session.answer }
    ensures problem { result.problem ≡ session.problem }
    ensures answer { Some result.answer ≡ session.answer }
    ensures trail { result.trail ≡ written.log.trail }
    ensures lines { result.lines ≡ written.log.lines }
    ensures review { result.review ≡ written.review }
{
    match session.into_parts() {
        (problem, Some(answer)) => Edited {
            problem,
            answer,
            trail: written.log.trail,
            lines: written.log.lines,
            review: written.review,
        },
        (_, None) => unreachable!(),
    }
}

fn edit_opened(
    alloc: Global,
    mut session: Session,
    mut panel: Panel,
    lines: &[EditLine],
    reviewed: bool,
) -> Result<Edited, EditingFault>
    requires fits { All (λ l. FitsClasses session.problem.classes l.edit) lines.now }
    requires few { balances_in lines.now ≤ 15 }
    requires shown { panel.shown ≡ 0 }
    requires reviewed { reviewed ≡ are_some (seats_of panel.seats.items (λ seat. seat_of (λ b. (⟦<dyn Reviewer as Reviewer>⟧ b.vtable).rule b.value) (λ b. (⟦<dyn Reviewer as Reviewer>⟧ b.vtable).marked b.value) panel.shown seat.label.items seat.seen seat.tally seat.object)) }
    ensures edited { IfOk result (λ e. IsEdited (seats_of panel.seats.items (λ seat. seat_of (λ b. (⟦<dyn Reviewer as Reviewer>⟧ b.vtable).rule b.value) (λ b. (⟦<dyn Reviewer as Reviewer>⟧ b.vtable).marked b.value) panel.shown seat.label.items seat.seen seat.tally seat.object)) session.problem lines.now e.problem e.answer e.trail.items e.lines.items (option_map (λ v. v.items) e.review)) }
    ensures refused { IfErr result (λ fault. IfRefused fault (λ f. moments_of (standing_labels (seats_of panel.seats.items (λ seat. seat_of (λ b. (⟦<dyn Reviewer as Reviewer>⟧ b.vtable).rule b.value) (λ b. (⟦<dyn Reviewer as Reviewer>⟧ b.vtable).marked b.value) panel.shown seat.label.items seat.seen seat.tally seat.object))) session.problem lines.now ≡ Err f)) }
    ensures graded { IfOk result (λ e. (s : SettingsFacts) → All (λ l. IsGraded s l.edit) lines.now → All (HasGrade s) session.problem.rows → All (HasGrade s) e.problem.rows) }
{
    match edit_before(alloc, &mut session, &mut panel, lines, reviewed) {
        Ok(written) => Ok(closed(session, written)),
        Err(fault) => Err(fault),
    }
}

fn edit_session(
    alloc: Global,
    session: Session,
    lines: &[EditLine],
    reviewers: Vec<Box<dyn Reviewer>>,
) -> Result<Edited, EditingFault>
    requires zero { All (λ b. marked b ≡ 0) reviewers.items }
    requires fits { All (λ l. FitsClasses session.problem.classes l.edit) lines.now }
    requires few { balances_in lines.now ≤ 15 }
    ensures edited { IfOk result (λ e. IsEdited (map (λ b. new_seat (name b) (rule b)) reviewers.items) session.problem lines.now e.problem e.answer e.trail.items e.lines.items (option_map (λ v. v.items) e.review)) }
    ensures refused { IfErr result (λ fault. IfRefused fault (λ f. moments_of (standing_labels (map (λ b. new_seat (name b) (rule b)) reviewers.items)) session.problem lines.now ≡ Err f)) }
    ensures graded { IfOk result (λ e. (s : SettingsFacts) → All (λ l. IsGraded s l.edit) lines.now → All (HasGrade s) session.problem.rows → All (HasGrade s) e.problem.rows) }
{
    let reviewed = !reviewers.is_empty();
    match Panel::new(alloc, reviewers) {
        Ok(panel) => edit_opened(alloc, session, panel, lines, reviewed),
        Err(_) => Err(EditingFault::NoMemory),
    }
}

/// Takes edits of the rows of a problem in order, at most 15 of them rebalances, up to the first that is refused. A rebalance
/// answers the rows as they are then; where the last edit is none, or there is no edit, there is one more at the end. The
/// reviewers that stand see each balanced table; a `dismiss` ends the standing of the first that stands with its label, and is
/// refused where none does.
pub fn edit_rows(
    alloc: Global,
    p: Problem,
    lines: &[EditLine],
    reviewers: Vec<Box<dyn Reviewer>>,
) -> Result<Edited, EditingFault>
    requires zero { All (λ b. marked b ≡ 0) reviewers.items }
    requires fits { All (λ l. FitsClasses p.classes l.edit) lines.now }
    requires few { balances_in lines.now ≤ 15 }
    ensures edited { IfOk result (λ e. IsEdited (map (λ b. new_seat (name b) (rule b)) reviewers.items) p lines.now e.problem e.answer e.trail.items e.lines.items (option_map (λ v. v.items) e.review)) }
    ensures refused { IfErr result (λ fault. IfRefused fault (λ f. moments_of (standing_labels (map (λ b. new_seat (name b) (rule b)) reviewers.items)) p lines.now ≡ Err f)) }
    ensures graded { IfOk result (λ e. (s : SettingsFacts) → All (λ l. IsGraded s l.edit) lines.now → All (HasGrade s) p.rows → All (HasGrade s) e.problem.rows) }
{
    match Session::open(alloc, p) {
        Ok(session) => edit_session(alloc, session, lines, reviewers),
        Err(_) => {
            drop(reviewers);
            Err(EditingFault::NoMemory)
        }
    }
}
