//! The rows of a problem under edits, and their answers.

ghost use Rattle.std.specs.Prelude.{◌≡◌, ◌≢◌, ◌-◌, ◌≤◌, None, Ok, Err, IfOk, OnOk, OnErr, IsOk, IfSome, IsSomeAnd};
ghost use Rattle.std.specs.Option.{option_copied};
ghost use Rattle.sut_records.specs.FirstFault.{and_then};
ghost use Rattle.sut_edits.specs.Edits.{edited};
ghost use Rattle.sut_edits.specs.EditRules.{FitsClasses};
ghost use Rattle.sut_session.specs.Following.{ChangesRows};
ghost use Rattle.sut_session.specs.SmallSets.{AfterSmallSet, KeepsBounds, StaysNear};
ghost use Rattle.sut_session.specs.Standing.{IsAnswerTo};

use crate::following::follow;
use crate::last_tables::{take_table, with_same_cells};
use crate::networks::{Network, answer_to, network_of};
use flow_residual::Steps;
use no_memory::NoMemory;
use std::alloc::Global;
use std::marker::Model;
use std::sync::ledger::Ledger;
use sut_cert::Answer;
use sut_edits::{Edit, EditFault, apply_edit};
use sut_tables::{Problem, Table};

/// The rows of a problem as they are now, their answer, if one stands, and the network on which the next answer goes on.
pub struct Session {
    problem: Problem,
    /// None after an edit that the network does not follow.
    network: Option<Network>,
    answer: Option<Answer>,
    /// The last balanced table while its cells are those of the rows: the next one is written over it.
    last: Option<Table>,
}

impl Drop for Session {
    fn drop(self) {
        let Session {
            problem,
            network,
            answer,
            last,
        } = self;
        drop(problem);
        drop(network);
        drop(answer);
        drop(last);
    }
}

impl Model for Session {
    ghost use Rattle.sut_session.specs.SessionFacts.{SessionFacts};

    ghost Value = { SessionFacts };

    ghost use Rattle.sut_session.specs.SessionView.{KeepsAnswer, session_of};

    ghost view = { session_of };

    ghost invariant = { KeepsAnswer };
}

impl Session {
    /// A session over the rows of a problem, without an answer.
    pub fn open(alloc: Global, p: Problem) -> Result<Session, NoMemory>
        ensures problem { IfOk result (λ s. s.problem ≡ p) }
        ensures answer { IfOk result (λ s. s.answer ≡ None) }
    {
        match network_of(alloc, &p) {
            Ok(network) => Ok(Session {
                problem: p,
                network: Some(network),
                answer: None,
                last: None,
            }),
            Err(_) => Err(NoMemory),
        }
    }

    /// The rows as they are now and their answer, if one stands; the network is dropped.
    pub fn into_parts(self) -> (Problem, Option<Answer>)
        ensures problem { result.0 ≡ self.problem }
        ensures answer { result.1 ≡ self.answer }
    {
        let Session {
            problem,
            network,
            answer,
            last,
        } = self;
        drop(network);
        drop(last);
        (problem, answer)
    }

    /// The rows as they are now.
    pub fn problem(&self) -> &Problem
        ensures { result.now ≡ self.now.problem }
    {
        &self.problem
    }

    /// The answer to the rows as they are now; none before a rebalance, and after an edit until the next one.
    pub fn answer(&self) -> Option<&Answer>
        ensures value { option_copied result ≡ self.now.answer }
        ensures right { IfSome self.now.answer (IsAnswerTo self.now.problem self.now.kept) }
    {
        self.answer.as_ref()
    }

    /// Takes the step of a set, an add or a drop on the rows, after which no answer stands; or answers the first need of it
    /// that is not met: a set and a drop need the measure's row (`NoRow`), an add needs that there is none (`RowThere`), and
    /// fewer than 131,072 rows of cells, or 16,384 of totals (`Full`), and memory. Nothing changes after a fault.
    pub fn apply(&mut self, edit: &Edit) -> Result<(), EditFault>
        requires fits { FitsClasses self.old.problem.classes edit.now }
        requires rows { ChangesRows edit.now }
        ensures value { result ≢ Err EditFault.NoMemory → edited self.old.problem edit.now ≡ and_then result (λ _. Ok self.new.problem) }
        ensures answer { OnOk result (self.new.answer ≡ None) }
        ensures unchanged { OnErr result (self.new ≡ self.old) }
        ensures no_memory { result ≡ Err EditFault.NoMemory → IsOk (edited self.old.problem edit.now) }

        // A set that keeps the bounds leaves the numbers and the potentials of the network.
        ensures kept { OnOk result (KeepsBounds self.old.problem edit.now → self.new.kept ≡ self.old.kept) }
    {
        match apply_edit(&mut self.problem, edit) {
            Ok(()) => {
                take_table(&mut self.answer, &mut self.last);
                self.last = with_same_cells(self.last.take(), edit);
                follow(&mut self.network, &self.problem, edit);
                Ok(())
            }
            Err(fault) => Err(fault),
        }
    }

    /// Answers the rows as they are now. The solver goes on from the numbers and potentials that the session keeps. Where
    /// memory runs out no answer stands.
    pub fn rebalance<L: Ledger>(
        &mut self,
        alloc: Global,
        steps: &mut Steps<L>,
    ) -> Result<(), NoMemory>
        ensures problem { self.new.problem ≡ self.old.problem }
        ensures answer { OnOk result (IsSomeAnd self.new.answer (IsAnswerTo self.new.problem self.new.kept)) }
        ensures no_memory { OnErr result (self.new.answer ≡ None) }
        ensures counts_up { steps.old ≤ steps.new }

        // After a set that moved one target by d, at most 4,096, there are at most d augmentations, and each value stays
        // within d of what it was, that of the edited measure within 2d.
        ensures few_ticks { AfterSmallSet self.old (λ t m d. steps.new - steps.old ≤ d) }
        ensures near { OnOk result (AfterSmallSet self.old (λ t m d. IfSome self.new.answer (StaysNear self.new.problem t m d))) }
    {
        take_table(&mut self.answer, &mut self.last);
        // The problem's rows bound its tables.
        self.problem.kept();
        let last = self.last.take();
        let answer = answer_to(alloc, &self.problem, &mut self.network, steps, last)?;
        self.answer = Some(answer);
        Ok(())
    }
}
