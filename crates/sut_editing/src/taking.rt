//! The edits of the lines, taken in order.

ghost use Rattle.std.specs.Prelude.{◌≡◌, ◌≤◌, ◌+◌, List, All, OnOk, Ok, Err, IfErr, if◌then◌else◌, true, false};
ghost use Rattle.sut_records.specs.FirstFault.{fault_as};
ghost use Rattle.sut_settings.specs.SettingsFacts.{SettingsFacts};
ghost use Rattle.sut_source.specs.SourceText.{HasGrade};
ghost use Rattle.sut_edits.specs.Edits.{edited};
ghost use Rattle.sut_edits.specs.EditRules.{FitsClasses, IsGraded};
ghost use Rattle.sut_edits.specs.EditsFile.{at_line, balances_in, is_balance};
ghost use Rattle.sut_review.specs.Seats.{SeatFacts, dismissed, seat_of, seats_of};
ghost use Rattle.sut_session.specs.Following.{ChangesRows};
ghost use Rattle.sut_session.specs.SmallSets.{KeepsBounds};
ghost use Rattle.sut_editing.specs.Moments.{IfRefused, Stage, has_label, line_taken, lines_taken, refusal, refused_cause, standing_labels};
ghost use Rattle.sut_editing.specs.Events.{Event};
ghost use Rattle.sut_editing.specs.Reached.{IsReached, Reaches, kept_in};

use crate::faults::EditingFault;
use crate::logs::Log;
use crate::rebalancing::rebalance;
use crate::reviewing::dismiss_first;
use std::alloc::Global;
use sut_edits::{Edit, EditFault, EditLine, EditsCause, EditsFault};
use sut_review::{Panel, Reviewer};
use sut_session::Session;

fn refused(line: u64, cause: EditsCause) -> EditingFault
    ensures { result ≡ EditingFault.Refused (record { line = line; cause = cause }) }
{
    EditingFault::Refused(EditsFault { line, cause })
}

fn refusal(line: u64, fault: EditFault) -> EditingFault
    ensures { result ≡ refusal line fault }
{
    match fault {
        EditFault::NoRow => refused(line, EditsCause::NoRow),
        EditFault::RowThere => refused(line, EditsCause::RowThere),
        EditFault::Full => refused(line, EditsCause::Full),
        EditFault::NoMemory => EditingFault::NoMemory,
    }
}

// Takes a set, an add or a drop.
fn edit_one_row(
    session: &mut Session,
    log: &mut Log,
    line: u64,
    edit: &Edit,
) -> Result<(), EditingFault>
    requires fits { FitsClasses session.old.problem.classes edit.now }
    requires rows { ChangesRows edit.now }
    ensures edited { OnOk result (edited session.old.problem edit.now ≡ Ok session.new.problem) }
    ensures rows { ChangesRows edit.now }
    ensures kept { OnOk result (KeepsBounds session.old.problem edit.now → session.new.kept ≡ session.old.kept) }
    ensures refused { IfErr result (λ fault. IfRefused fault (λ f. at_line line (fault_as refused_cause (edited session.old.problem edit.now)) ≡ Err f)) }
    ensures trail { log.new.trail.items ≡ log.old.trail.items }
    ensures lines { log.new.lines.items ≡ log.old.lines.items }
    ensures rebalances { log.new.rebalances ≡ log.old.rebalances }
    ensures marked { log.new.marked ≡ false }
{
    log.marked = false;
    match session.apply(edit) {
        Ok(()) => Ok(()),
        Err(fault) => Err(refusal(line, fault)),
    }
}

// Dismisses the first reviewer that stands with this label.
fn dismiss_one(
    panel: &mut Panel,
    log: &mut Log,
    line: u64,
    label: &[u8],
) -> Result<(), EditingFault>
    requires { panel.old.shown ≤ 64 }
    ensures found { OnOk result (has_label label.now (standing_labels (seats_of panel.old.seats.items (λ seat. seat_of (λ b. (⟦<dyn Reviewer as Reviewer>⟧ b.vtable).rule b.value) (λ b. (⟦<dyn Reviewer as Reviewer>⟧ b.vtable).marked b.value) panel.old.shown seat.label.items seat.seen seat.tally seat.object))) ≡ true) }
    ensures none { IfErr result (λ fault. (fault ≡ EditingFault.Refused (record { line = line; cause = EditsCause.NoReviewer })) × (has_label label.now (standing_labels (seats_of panel.old.seats.items (λ seat. seat_of (λ b. (⟦<dyn Reviewer as Reviewer>⟧ b.vtable).rule b.value) (λ b. (⟦<dyn Reviewer as Reviewer>⟧ b.vtable).marked b.value) panel.old.shown seat.label.items seat.seen seat.tally seat.object))) ≡ false)) }
    ensures shown { panel.new.shown ≡ panel.old.shown }
    ensures seats { OnOk result ((seats_of panel.new.seats.items (λ seat. seat_of (λ b. (⟦<dyn Reviewer as Reviewer>⟧ b.vtable).rule b.value) (λ b. (⟦<dyn Reviewer as Reviewer>⟧ b.vtable).marked b.value) panel.new.shown seat.label.items seat.seen seat.tally seat.object)) ≡ dismissed label.now (seats_of panel.old.seats.items (λ seat. seat_of (λ b. (⟦<dyn Reviewer as Reviewer>⟧ b.vtable).rule b.value) (λ b. (⟦<dyn Reviewer as Reviewer>⟧ b.vtable).marked b.value) panel.old.shown seat.label.items seat.seen seat.tally seat.object))) }
    ensures trail { log.new.trail.items ≡ log.old.trail.items }
    ensures lines { log.new.lines.items ≡ log.old.lines.items }
    ensures rebalances { log.new.rebalances ≡ log.old.rebalances }
    ensures marked { log.new.marked ≡ false }
{
    log.marked = false;
    if dismiss_first(panel, label) {
        Ok(())
    } else {
        Err(refused(line, EditsCause::NoReviewer))
    }
}

// Takes the edit of a line.
fn take_line(
    alloc: Global,
    session: &mut Session,
    panel: &mut Panel,
    log: &mut Log,
    line: &EditLine,
) -> Result<(), EditingFault>
    requires fits { FitsClasses session.old.problem.classes line.now.edit }
    requires few { log.old.rebalances ≤ 15 }
    requires shown { panel.old.shown ≤ log.old.rebalances }
    ensures taken { OnOk result ((first : List SeatFacts) (stage : Stage) (events : List Event) → IsReached first stage events (kept_in session.old (seats_of panel.old.seats.items (λ seat. seat_of (λ b. (⟦<dyn Reviewer as Reviewer>⟧ b.vtable).rule b.value) (λ b. (⟦<dyn Reviewer as Reviewer>⟧ b.vtable).marked b.value) panel.old.shown seat.label.items seat.seen seat.tally seat.object)) log.old) → Reaches first (line_taken line.now stage) (kept_in session.new (seats_of panel.new.seats.items (λ seat. seat_of (λ b. (⟦<dyn Reviewer as Reviewer>⟧ b.vtable).rule b.value) (λ b. (⟦<dyn Reviewer as Reviewer>⟧ b.vtable).marked b.value) panel.new.shown seat.label.items seat.seen seat.tally seat.object)) log.new)) }
    ensures refused { IfErr result (λ fault. IfRefused fault (λ f. (first : List SeatFacts) (stage : Stage) (events : List Event) → IsReached first stage events (kept_in session.old (seats_of panel.old.seats.items (λ seat. seat_of (λ b. (⟦<dyn Reviewer as Reviewer>⟧ b.vtable).rule b.value) (λ b. (⟦<dyn Reviewer as Reviewer>⟧ b.vtable).marked b.value) panel.old.shown seat.label.items seat.seen seat.tally seat.object)) log.old) → line_taken line.now stage ≡ Err f)) }
    ensures classes { OnOk result (session.new.problem.classes ≡ session.old.problem.classes) }
    ensures graded { OnOk result ((s : SettingsFacts) → IsGraded s line.now.edit → All (HasGrade s) session.old.problem.rows → All (HasGrade s) session.new.problem.rows) }
    ensures shown { OnOk result (panel.new.shown ≤ log.new.rebalances) }
    ensures counted { OnOk result (log.new.rebalances ≡ log.old.rebalances + (if is_balance line.now.edit then 1 else 0)) }
{
    match &line.edit {
        Edit::Balance => match rebalance(alloc, session, panel, log, Some(line.line)) {
            Ok(()) => Ok(()),
            Err(_) => Err(EditingFault::NoMemory),
        },
        Edit::Dismiss(label) => dismiss_one(panel, log, line.line, label.bytes()),
        Edit::Set(_) | Edit::Add(_) | Edit::Drop(_) => {
            edit_one_row(session, log, line.line, &line.edit)
        }
    }
}

/// Takes the edits of lines in order, up to the first that is refused.
pub(crate) fn take_lines(
    alloc: Global,
    session: &mut Session,
    panel: &mut Panel,
    log: &mut Log,
    lines: &[EditLine],
) -> Result<(), EditingFault>
    requires fits { All (λ l. FitsClasses session.old.problem.classes l.edit) lines.now }
    requires few { log.old.rebalances + balances_in lines.now ≤ 15 }
    requires shown { panel.old.shown ≤ log.old.rebalances }
    ensures taken { OnOk result ((first : List SeatFacts) (stage : Stage) (events : List Event) → IsReached first stage events (kept_in session.old (seats_of panel.old.seats.items (λ seat. seat_of (λ b. (⟦<dyn Reviewer as Reviewer>⟧ b.vtable).rule b.value) (λ b. (⟦<dyn Reviewer as Reviewer>⟧ b.vtable).marked b.value) panel.old.shown seat.label.items seat.seen seat.tally seat.object)) log.old) → Reaches first (lines_taken lines.now stage) (kept_in session.new (seats_of panel.new.seats.items (λ seat. seat_of (λ b. (⟦<dyn Reviewer as Reviewer>⟧ b.vtable).rule b.value) (λ b. (⟦<dyn Reviewer as Reviewer>⟧ b.vtable).marked b.value) panel.new.shown seat.label.items seat.seen seat.tally seat.object)) log.new)) }
    ensures refused { IfErr result (λ fault. IfRefused fault (λ f. (first : List SeatFacts) (stage : Stage) (events : List Event) → IsReached first stage events (kept_in session.old (seats_of panel.old.seats.items (λ seat. seat_of (λ b. (⟦<dyn Reviewer as Reviewer>⟧ b.vtable).rule b.value) (λ b. (⟦<dyn Reviewer as Reviewer>⟧ b.vtable).marked b.value) panel.old.shown seat.label.items seat.seen seat.tally seat.object)) log.old) → lines_taken lines.now stage ≡ Err f)) }
    ensures graded { OnOk result ((s : SettingsFacts) → All (λ l. IsGraded s l.edit) lines.now → All (HasGrade s) session.old.problem.rows → All (HasGrade s) session.new.problem.rows) }
    ensures few { OnOk result (log.new.rebalances ≤ 15) }
    ensures shown { OnOk result (panel.new.shown ≤ log.new.rebalances) }
{
    for line in lines {
        match take_line(alloc, session, panel, log, line) {
            Ok(()) => {}
            Err(fault) => return Err(fault),
        }
    }
    Ok(())
}
