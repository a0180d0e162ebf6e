//! The reviewers of a run, in the order in which they were handed in.

ghost use Rattle.std.specs.Prelude.{◌≡◌, ◌<◌, ◌+◌, All, IfOk, map, position};
ghost use Rattle.sut_tables.specs.Problems.{IsTableOf};
ghost use Rattle.sut_review.specs.Seats.{all_shown, dismissed_at, new_seat, seat_of, seats_of, stands_at, stands_with};
ghost use Rattle.sut_review.specs.ReviewText.{review_text};

use crate::reviewer::Reviewer;
use crate::seats::{Seat, is_standing, leave, put_seats, seat_for, show_all};
use no_memory::NoMemory;
use std::alloc::Global;
use sut_tables::{Problem, Table};
use sut_text::put_bytes;

/// Reviewers, each at its place in the order in which they were handed in, and the number of tables shown to them.
pub struct Panel {
    seats: Vec<Seat>,
    shown: u64,
}

impl Drop for Panel {
    fn drop(self) {
        let Panel { seats, shown: _ } = self;
        drop(seats);
    }
}

impl Panel {
    /// The reviewers that are handed in stand, each at its place, with no table seen and the tally 0. A copy of each label
    /// is made here.
    pub fn new(alloc: Global, list: Vec<Box<dyn Reviewer>>) -> Result<Panel, NoMemory>
        requires { All (λ b. marked b ≡ 0) list.items }
        ensures shown { IfOk result (λ panel. panel.shown ≡ 0) }
        ensures seats { IfOk result (λ panel. seats_of panel.seats.items (λ seat. seat_of (λ b. rule b) (λ b. marked b) panel.shown seat.label.items seat.seen seat.tally seat.object) ≡ map (λ b. new_seat (name b) (rule b)) list.items) }
    {
        let mut seats = Vec::new(alloc);
        for object in list {
            seats.push(seat_for(alloc, object)?)?;
        }
        Ok(Panel { seats, shown: 0 })
    }

    /// Each reviewer that stands sees the table once; nothing changes for one that was dismissed. At most 64 tables may be
    /// shown to a panel. (A tally of 2^63 or more would stand still: 64 tables never reach it.)
    pub fn review_all(&mut self, p: &Problem, t: &Table)
        requires few { self.old.shown < 64 }
        requires of { IsTableOf p.now t.now }
        ensures shown { self.new.shown ≡ self.old.shown + 1 }
        ensures seats { seats_of self.new.seats.items (λ seat. seat_of (λ b. rule b) (λ b. marked b) self.new.shown seat.label.items seat.seen seat.tally seat.object) ≡ all_shown p.now t.now (seats_of self.old.seats.items (λ seat. seat_of (λ b. rule b) (λ b. marked b) self.old.shown seat.label.items seat.seen seat.tally seat.object)) }
    {
        show_all(&mut self.seats, p, t);
        self.shown += 1;
    }

    /// Drops the reviewer at a place, counted from 0, and keeps its label, the number of tables shown to it and its tally.
    /// False exactly where none stands at that place, and then nothing changes.
    pub fn dismiss(&mut self, index: usize) -> bool
        ensures answer { result ≡ stands_at index (seats_of self.old.seats.items (λ seat. seat_of (λ b. rule b) (λ b. marked b) self.old.shown seat.label.items seat.seen seat.tally seat.object)) }
        ensures shown { self.new.shown ≡ self.old.shown }
        ensures seats { seats_of self.new.seats.items (λ seat. seat_of (λ b. rule b) (λ b. marked b) self.new.shown seat.label.items seat.seen seat.tally seat.object) ≡ dismissed_at index (seats_of self.old.seats.items (λ seat. seat_of (λ b. rule b) (λ b. marked b) self.old.shown seat.label.items seat.seen seat.tally seat.object)) }
    {
        if index >= self.seats.len() {
            return false;
        }
        let shown = self.shown;
        let seat = &mut self.seats[index];
        leave(seat, shown)
    }

    /// The place of the first reviewer that stands with this label; None exactly where none does.
    pub fn standing(&self, label: &[u8]) -> Option<usize>
        ensures { result ≡ position (stands_with label.now) (seats_of self.now.seats.items (λ seat. seat_of (λ b. rule b) (λ b. marked b) self.now.shown seat.label.items seat.seen seat.tally seat.object)) }
    {
        for (place, seat) in self.seats.iter().enumerate() {
            if is_standing(seat, label) {
                return Some(place);
            }
        }
        None
    }

    /// `review.csv`: under the header `label,seen,tally,standing` a line for each reviewer, in the order in which they were
    /// handed in, with `yes` or `no` in the last field.
    pub fn text(&self, alloc: Global) -> Result<Vec<u8>, NoMemory>
        ensures { IfOk result (λ v. v.items ≡ review_text (seats_of self.now.seats.items (λ seat. seat_of (λ b. rule b) (λ b. marked b) self.now.shown seat.label.items seat.seen seat.tally seat.object))) }
    {
        let mut out = Vec::new(alloc);
        put_bytes(&mut out, b"label,seen,tally,standing\n")?;
        put_seats(&mut out, &self.seats, self.shown)?;
        Ok(out)
    }
}
