//! Reviewers before whom a run of edits stands.

ghost use Rattle.std.specs.Prelude.{◌≡◌, ◌≤◌, ◌<◌, ◌+◌, All, true};
ghost use Rattle.sut_cert.specs.Right.{IsRight};
ghost use Rattle.sut_review.specs.Seats.{dismissed, seat_of, seats_of};
ghost use Rattle.sut_editing.specs.Moments.{has_label, standing_labels};
ghost use Rattle.sut_editing.specs.Shown.{seats_shown};

use sut_cert::Answer;
use sut_review::{Panel, Reviewer};
use sut_tables::Problem;

/// The reviewers see the table of a balanced answer.
pub(crate) fn show_answer(panel: &mut Panel, p: &Problem, a: &Answer)
    requires few { panel.old.shown < 64 }
    requires right { IsRight p.now a.now }
    ensures shown { panel.new.shown ≤ panel.old.shown + 1 }
    ensures seats { seats_of panel.new.seats.items (λ seat. seat_of (λ b. (⟦<dyn Reviewer as Reviewer>⟧ b.vtable).rule b.value) (λ b. (⟦<dyn Reviewer as Reviewer>⟧ b.vtable).marked b.value) panel.new.shown seat.label.items seat.seen seat.tally seat.object) ≡ seats_shown p.now a.now (seats_of panel.old.seats.items (λ seat. seat_of (λ b. (⟦<dyn Reviewer as Reviewer>⟧ b.vtable).rule b.value) (λ b. (⟦<dyn Reviewer as Reviewer>⟧ b.vtable).marked b.value) panel.old.shown seat.label.items seat.seen seat.tally seat.object)) }
{
    match a {
        Answer::Balanced(table, _) => panel.review_all(p, table),
        Answer::Infeasible(_) => {}
    }
}

/// Dismisses the first reviewer that stands with this label. False exactly where none does.
pub(crate) fn dismiss_first(panel: &mut Panel, label: &[u8]) -> bool
    requires { panel.old.shown ≤ 64 }
    ensures found { result ≡ has_label label.now (standing_labels (seats_of panel.old.seats.items (λ seat. seat_of (λ b. (⟦<dyn Reviewer as Reviewer>⟧ b.vtable).rule b.value) (λ b. (⟦<dyn Reviewer as Reviewer>⟧ b.vtable).marked b.value) panel.old.shown seat.label.items seat.seen seat.tally seat.object))) }
    ensures shown { panel.new.shown ≡ panel.old.shown }
    ensures seats { result ≡ true → seats_of panel.new.seats.items (λ seat. seat_of (λ b. (⟦<dyn Reviewer as Reviewer>⟧ b.vtable).rule b.value) (λ b. (⟦<dyn Reviewer as Reviewer>⟧ b.vtable).marked b.value) panel.new.shown seat.label.items seat.seen seat.tally seat.object) ≡ dismissed label.now (seats_of panel.old.seats.items (λ seat. seat_of (λ b. (⟦<dyn Reviewer as Reviewer>⟧ b.vtable).rule b.value) (λ b. (⟦<dyn Reviewer as Reviewer>⟧ b.vtable).marked b.value) panel.old.shown seat.label.items seat.seen seat.tally seat.object)) }
{
    match panel.standing(label) {
        Some(place) => panel.dismiss(place),
        None => false,
    }
}
