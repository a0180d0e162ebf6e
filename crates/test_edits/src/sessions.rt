//! Years that are balanced again after a target moved.

ghost use Rattle.std.specs.Prelude.{◌≡◌, ◌<◌};

use flow_residual::Steps;
use no_memory::NoMemory;
use std::alloc::Global;
use std::marker::Brand;
use std::sync::ledger::{Blank, Ledger};
use sut_cert::Answer;
use sut_classes::{Classes, Column, FinalId, IndustryId, ProductId, read_classes};
use sut_edits::Edit;
use sut_generate::generate;
use sut_measures::{Cell, Measure, fits};
use sut_session::Session;
use sut_settings::{Settings, read_settings};
use sut_source::read_source;
use sut_tables::{Problem, Row, value};

const MAKE: Measure = Measure::Cell(Cell::Make(ProductId(0), IndustryId(0)));

const BASIC: Measure = Measure::Cell(Cell::Basic(ProductId(0), Column::Final(FinalId(0))));

#[derive(Clone, Copy, Debug)]
enum Year {
    /// Two final uses.
    FinalUses,
    /// Two industries that may make what is used.
    Industries,
    /// Drawn from a seed.
    Made,
}

/// The value of each row's measure in the session's table, in measure order; none without a table.
fn values_in(alloc: Global, session: &Session) -> Result<Vec<i128>, NoMemory> {
    let mut values = Vec::new(alloc);
    if let Some(Answer::Balanced(table, _)) = session.answer() {
        for row in session.problem().rows() {
            values.push(value(table, row.measure()))?;
        }
    }
    Ok(values)
}

/// The row of a measure, its target moved up.
fn raised(session: &Session, m: Measure, by: i64) -> Option<Row> {
    let row = session.problem().find(m)?;
    Row::new(
        m,
        Some(row.target()?.saturating_add(by)),
        row.penalty(),
        row.grade(),
        row.weight(),
        row.lower(),
        row.upper(),
    )
}

/// Whether the target of a measure moved up, and no answer stands then.
fn raise(session: &mut Session, m: Measure, by: i64) -> bool {
    let Some(row) = raised(session, m, by) else {
        return false;
    };
    if !fits(session.problem().classes(), row.measure()) {
        return false;
    }
    session.apply(&Edit::Set(row)).is_ok() && session.answer().is_none()
}

/// The values after a rebalance.
fn rebalanced<L: Ledger>(
    alloc: Global,
    session: &mut Session,
    steps: &mut Steps<L>,
) -> Result<Vec<i128>, NoMemory> {
    match session.rebalance(alloc, steps) {
        Ok(()) => values_in(alloc, session),
        Err(_) => Err(NoMemory),
    }
}

/// The values before and after the target of a measure moved up; none where it could not move.
fn around<L: Ledger>(
    alloc: Global,
    session: &mut Session,
    m: Measure,
    by: i64,
    steps: &mut Steps<L>,
) -> Result<Option<(Vec<i128>, Vec<i128>)>, NoMemory> {
    let before = rebalanced(alloc, session, steps)?;
    if !raise(session, m, by) {
        return Ok(None);
    }
    let after = rebalanced(alloc, session, steps)?;
    Ok(Some((before, after)))
}

/// Whether each value is within 1 of what it was, and that at a place within 2.
fn is_near(before: &[i128], after: &[i128], place: usize) -> bool {
    if before.len() != after.len() || before.is_empty() {
        return false;
    }
    for (k, (was, now)) in before.iter().zip(after).enumerate() {
        let most = if k == place { 2 } else { 1 };
        if now.abs_diff(*was) > most {
            return false;
        }
    }
    true
}

/// The make moves up by 28, and draws the import and both uses along.
fn final_uses_move<L: Ledger>(alloc: Global, session: &mut Session, steps: &mut Steps<L>) -> bool {
    match around(alloc, session, MAKE, 28, steps) {
        Ok(Some((before, after))) => {
            before.as_slice() == [82, 32, 68, 46, 82].as_slice()
                && after.as_slice() == [103, 25, 75, 53, 103].as_slice()
        }
        _ => false,
    }
}

/// Many tables are least, and the next one is near. The use is the third row.
fn industries_move<L: Ledger>(alloc: Global, session: &mut Session, steps: &mut Steps<L>) -> bool {
    match around(alloc, session, BASIC, 1, steps) {
        Ok(Some((before, after))) => {
            is_near(&before, &after, 2) && before.get(2) == Some(&100) && after.get(2) == Some(&101)
        }
        _ => false,
    }
}

/// The first make, which is the first row, moves up by 1.
fn make_moves<L: Ledger>(alloc: Global, session: &mut Session, steps: &mut Steps<L>) -> bool {
    match around(alloc, session, MAKE, 1, steps) {
        Ok(Some((before, after))) => is_near(&before, &after, 0),
        _ => false,
    }
}

fn make_moves_often<L: Ledger>(alloc: Global, session: &mut Session, steps: &mut Steps<L>) -> bool {
    for _moved in 0..15 {
        if !make_moves(alloc, session, steps) {
            return false;
        }
    }
    true
}

fn moves_of<L: Ledger>(alloc: Global, year: Year, session: &mut Session, blank: Blank) -> bool
    requires name { blank.name ≡ L.name }
    requires parts { blank.parts ≡ L.parts }
    requires some { 0 < L.parts }
{
    let mut steps = Steps::<L>::new(blank);
    match year {
        Year::FinalUses => final_uses_move(alloc, session, &mut steps),
        Year::Industries => industries_move(alloc, session, &mut steps),
        Year::Made => make_moves_often(alloc, session, &mut steps),
    }
}

fn moves(alloc: Global, year: Year, session: &mut Session) -> bool {
    moves_of::<Brand>(alloc, year, session, Blank::new(1))
}

fn problem_moves(alloc: Global, year: Year, problem: Problem) -> bool {
    match Session::open(alloc, problem) {
        Ok(mut session) => moves(alloc, year, &mut session),
        Err(_) => false,
    }
}

fn source_moves(
    alloc: Global,
    year: Year,
    settings: &Settings,
    classes: Classes,
    source: &[u8],
) -> bool {
    match read_source(alloc, settings, classes, source) {
        Ok(problem) => problem_moves(alloc, year, problem),
        Err(_) => false,
    }
}

fn year_moves(
    alloc: Global,
    year: Year,
    settings: &Settings,
    classes: &[u8],
    source: &[u8],
) -> bool {
    match read_classes(alloc, classes) {
        Ok(classes) => source_moves(alloc, year, settings, classes, source),
        Err(_) => false,
    }
}

/// A trial of a year in scheme `flat`, without grades.
fn flat_moves(alloc: Global, year: Year, classes: &[u8], source: &[u8]) -> bool {
    match read_settings(alloc, b"scheme = \"flat\"\n") {
        Ok(settings) => year_moves(alloc, year, &settings, classes, source),
        Err(_) => false,
    }
}

const FINALS: &[u8] = b"axis,code,kind
product,X,plain
industry,A,
final,F,
final,E,
item,V,
";

const FINALS_SOURCE: &[u8] = b"kind,a,b,c,target,grade,lower,upper
make,X,A,,80,,,
import,X,,,30,,,
basic,X,F,,70,,,
basic,X,E,,48,,,
added,V,A,,,,0,1000
";

const INDUSTRIES: &[u8] = b"axis,code,kind
product,X,plain
industry,A,
industry,B,
final,F,
item,V,
";

const INDUSTRIES_SOURCE: &[u8] = b"kind,a,b,c,target,grade,lower,upper
make,X,A,,,,0,1000
make,X,B,,,,0,1000
basic,X,F,,100,,,
added,V,A,,,,0,1000
added,V,B,,,,0,1000
";

/// The made year of seed 1 with 40 products and 20 industries.
fn made_moves(alloc: Global) -> bool {
    match generate(alloc, 1, 40, 20) {
        Ok(files) => flat_moves(alloc, Year::Made, &files.classes, &files.source),
        Err(_) => false,
    }
}

fn passes(alloc: Global, year: Year) -> bool {
    match year {
        Year::FinalUses => flat_moves(alloc, year, FINALS, FINALS_SOURCE),
        Year::Industries => flat_moves(alloc, year, INDUSTRIES, INDUSTRIES_SOURCE),
        Year::Made => made_moves(alloc),
    }
}

#[test]
fn values_after_moved_targets(rt: HostRuntime) {
    for year in [Year::FinalUses, Year::Industries, Year::Made] {
        let passed = passes(rt.alloc(), year);
        assert!(rt; passed, "{year:?}");
    }
}
