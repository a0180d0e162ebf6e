//! The seats of a panel.

ghost use Rattle.std.specs.Prelude.{◌≡◌, ◌<◌, ◌+◌, ◌^◌, ◌++◌, ℕ, IfOk, OnOk, is_some, map, vec_len};
ghost use Rattle.std.specs.List.{flat_map};
ghost use Rattle.sut_tables.specs.Problems.{IsTableOf};
ghost use Rattle.sut_text.specs.Fields.{field_bytes};
ghost use Rattle.sut_text.specs.Text.{field_text, line_text};
ghost use Rattle.sut_review.specs.Rules.{SameRule, asked, marks_of};
ghost use Rattle.sut_review.specs.ReviewText.{seat_line, yes_or_no};
ghost use Rattle.sut_review.specs.Seats.{all_shown, ended, new_seat, raised, seat_of, seat_shown, seats_of, stands_with, told_seen, told_tally};

use crate::laws::values_asked;
use crate::reviewer::Reviewer;
use no_memory::NoMemory;
use std::alloc::Global;
use sut_tables::{Problem, Table};
use sut_text::fields::{Field, put_line_end};
use sut_text::put_field;

// A reviewer's seat. One that was dismissed has no object left; then `seen` is the number of tables shown to it, and `tally`
// its last tally. One that stands has seen each table that the panel was shown, and its object tells the tally.
#[derive(Drop)]
pub(crate) struct Seat {
    pub(crate) label: Vec<u8>,
    pub(crate) seen: u64,
    pub(crate) tally: u64,
    pub(crate) object: Option<Box<dyn Reviewer>>,
}

// Shows the table to a boxed reviewer.
fn see_in_box(object: &mut Box<dyn Reviewer>, p: &Problem, t: &Table)
    requires few { marked object.old < 2 ^ 63 }
    requires of { IsTableOf p.now t.now }
    ensures tally { marked object.new ≡ marked object.old + marks_of (rule object.old) p.now t.now }
    ensures rule { SameRule (rule object.old) (rule object.new) }
{
    object.see(p, t);
}

// Shows the table to a boxed reviewer, whose rule stays as far as it is asked. One whose tally has reached 2^63 may not be
// shown another table.
fn show_box(object: &mut Box<dyn Reviewer>, p: &Problem, t: &Table)
    requires of { IsTableOf p.now t.now }
    ensures tally { marked object.new ≡ raised (marked object.old) (marks_of (asked (rule object.old)) p.now t.now) }
    ensures rule { asked (rule object.new) ≡ asked (rule object.old) }
{
    values_asked(p, t);
    if tally_of(object) < 1 << 63 {
        see_in_box(object, p, t);
    }
}

fn tally_of(object: &Box<dyn Reviewer>) -> u64
    ensures { result ≡ marked object.now }
{
    object.tally()
}

// A copy of a boxed reviewer's label.
fn copied_label(alloc: Global, object: &Box<dyn Reviewer>) -> Result<Vec<u8>, NoMemory>
    ensures { IfOk result (λ v. v.items ≡ name object.now) }
{
    let label = Vec::from_slice(alloc, object.label().as_bytes())?;
    Ok(label)
}

// The seat of a reviewer that is handed in.
pub(crate) fn seat_for(alloc: Global, object: Box<dyn Reviewer>) -> Result<Seat, NoMemory>
    requires { marked object ≡ 0 }
    ensures { IfOk result (λ seat. seat_of (λ b. rule b) (λ b. marked b) 0 seat.label.items seat.seen seat.tally seat.object ≡ new_seat (name object) (rule object)) }
{
    let label = copied_label(alloc, &object)?;
    Ok(Seat {
        label,
        seen: 0,
        tally: 0,
        object: Some(object),
    })
}

// Shows the table to the reviewer, if it stands.
pub(crate) fn show(seat: &mut Seat, p: &Problem, t: &Table)
    requires { IsTableOf p.now t.now }
    ensures { (shown : ℕ) → seat_of (λ b. rule b) (λ b. marked b) (shown + 1) seat.new.label.items seat.new.seen seat.new.tally seat.new.object ≡ seat_shown p.now t.now (seat_of (λ b. rule b) (λ b. marked b) shown seat.old.label.items seat.old.seen seat.old.tally seat.old.object) }
{
    if let Some(object) = &mut seat.object {
        show_box(object, p, t);
    }
}

// Takes the object out of the seat, if there is one, and keeps its tally and the number of tables that were shown.
pub(crate) fn leave(seat: &mut Seat, shown: u64) -> bool
    ensures stood { result ≡ is_some (seat_of (λ b. rule b) (λ b. marked b) shown seat.old.label.items seat.old.seen seat.old.tally seat.old.object).standing }
    ensures left { seat_of (λ b. rule b) (λ b. marked b) shown seat.new.label.items seat.new.seen seat.new.tally seat.new.object ≡ ended (seat_of (λ b. rule b) (λ b. marked b) shown seat.old.label.items seat.old.seen seat.old.tally seat.old.object) }
{
    match seat.object.take() {
        Some(object) => {
            seat.seen = shown;
            seat.tally = tally_of(&object);
            drop(object);
            true
        }
        None => false,
    }
}

// The number of tables that the reviewer has seen.
fn seat_seen(seat: &Seat, shown: u64) -> u64
    ensures { result ≡ told_seen shown seat.now.seen seat.now.object }
{
    match &seat.object {
        Some(_) => shown,
        None => seat.seen,
    }
}

// The tally of the object, or the last one.
fn seat_tally(seat: &Seat) -> u64
    ensures { result ≡ told_tally (λ b. marked b) seat.now.tally seat.now.object }
{
    match &seat.object {
        Some(object) => tally_of(object),
        None => seat.tally,
    }
}

fn standing_field(stands: bool) -> Field<'static>
    ensures { field_bytes result ≡ yes_or_no stands }
{
    if stands {
        Field::Text(b"yes")
    } else {
        Field::Text(b"no")
    }
}

// Appends a label as a field of a line.
fn put_label(out: &mut Vec<u8>, label: &[u8]) -> Result<(), NoMemory>
    ensures { OnOk result (out.new.items ≡ out.old.items ++ field_text label.now) }
{
    put_field(out, label)
}

// Appends the reviewer's line.
pub(crate) fn put_seat(out: &mut Vec<u8>, seat: &Seat, shown: u64) -> Result<(), NoMemory>
    ensures { OnOk result (out.new.items ≡ out.old.items ++ line_text (seat_line (seat_of (λ b. rule b) (λ b. marked b) shown seat.now.label.items seat.now.seen seat.now.tally seat.now.object))) }
{
    put_label(out, &seat.label)?;
    put_line_end(
        out,
        &[
            Field::Count(seat_seen(seat, shown)),
            Field::Count(seat_tally(seat)),
            standing_field(seat.object.is_some()),
        ],
    )?;
    Ok(())
}

// Shows the table to each reviewer that stands.
pub(crate) fn show_all(seats: &mut Vec<Seat>, p: &Problem, t: &Table)
    requires { IsTableOf p.now t.now }
    ensures seats { (shown : ℕ) → seats_of seats.new.items (λ seat. seat_of (λ b. rule b) (λ b. marked b) (shown + 1) seat.label.items seat.seen seat.tally seat.object) ≡ all_shown p.now t.now (seats_of seats.old.items (λ seat. seat_of (λ b. rule b) (λ b. marked b) shown seat.label.items seat.seen seat.tally seat.object)) }
    ensures places { vec_len seats.new ≡ vec_len seats.old }
{
    for i in 0..seats.len() {
        show(&mut seats[i], p, t);
    }
}

// Whether the reviewer stands and has this label, however many tables were shown.
pub(crate) fn is_standing(seat: &Seat, label: &[u8]) -> bool
    ensures { result ≡ stands_with label.now (seat_of (λ b. rule b) (λ b. marked b) 0 seat.now.label.items seat.now.seen seat.now.tally seat.now.object) }
{
    seat.object.is_some() && seat.label.as_slice() == label
}

// Appends the lines of reviewers.
pub(crate) fn put_seats(out: &mut Vec<u8>, seats: &[Seat], shown: u64) -> Result<(), NoMemory>
    ensures { OnOk result (out.new.items ≡ out.old.items ++ flat_map line_text (map seat_line (seats_of seats.now (λ seat. seat_of (λ b. rule b) (λ b. marked b) shown seat.label.items seat.seen seat.tally seat.object)))) }
{
    for seat in seats {
        put_seat(out, seat, shown)?;
    }
    Ok(())
}
