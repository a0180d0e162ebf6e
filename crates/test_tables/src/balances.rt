//! Costs of small problems, balanced.

ghost use Rattle.std.specs.Prelude.{◌≡◌, ◌<◌};

use flow_residual::Steps;
use std::alloc::Global;
use std::marker::Brand;
use std::process::Abort;
use std::sync::ledger::{Blank, Ledger};
use std::test::Fail;
use sut_balance::{Answer, balance};
use sut_classes::{Column, FinalId, IndustryId, ItemId, ProductId, read_classes};
use sut_measures::{Cell, Measure, fits};
use sut_tables::{Penalty, Problem, Row, value};

const CLASSES: &[u8] = b"axis,code,kind\nproduct,X,plain\nindustry,A,\nfinal,F,\nitem,V,\n";

const MAKE: Measure = Measure::Cell(Cell::Make(ProductId(0), IndustryId(0)));

const BASIC: Measure = Measure::Cell(Cell::Basic(ProductId(0), Column::Final(FinalId(0))));

const ADDED: Measure = Measure::Cell(Cell::Added(ItemId(0), IndustryId(0)));

/// A row's measure, target, penalty, weight and bounds.
type RowCase = (Measure, Option<i64>, Penalty, u32, i64, i64);

fn problem_of(rt: &impl Abort, alloc: Global, rows: &[RowCase]) -> Result<Problem, Fail> {
    let classes = read_classes(alloc, CLASSES).ok().ok_or("classes")?;
    let mut problem = Problem::new(alloc, classes);
    for &(measure, target, penalty, weight, lower, upper) in rows {
        let row = Row::new(measure, target, penalty, 0, weight, lower, upper).ok_or("a row")?;
        assert!(rt; fits(problem.classes(), row.measure()));
        assert!(rt; problem.add(row).is_ok());
    }
    Ok(problem)
}

/// One product: a make of 100 with this weight, up to `most`, and a purchase with this target, from `least` on.
#[derive(Clone, Copy)]
struct Case {
    weight: u32,
    most: i64,
    target: i64,
    penalty: Penalty,
    least: i64,
    /// The value of both, or none where the problem is infeasible.
    want: Option<i128>,
}

/// The rows of a case, and an added item without a target.
fn rows_of(case: &Case) -> [RowCase; 3] {
    let make = (MAKE, Some(100), Penalty::Square, case.weight, 0, case.most);
    let basic = (BASIC, Some(case.target), case.penalty, 1, case.least, 1000);
    [make, basic, (ADDED, None, Penalty::Square, 0, 0, 1000)]
}

/// The value of the make, or none where the problem is infeasible.
fn make_of<L: Ledger>(alloc: Global, problem: &Problem, blank: Blank) -> Result<Option<i128>, Fail>
    requires name { blank.name ≡ L.name }
    requires parts { blank.parts ≡ L.parts }
    requires some { 0 < L.parts }
{
    let mut steps = Steps::<L>::new(blank);
    match balance(alloc, problem, &mut steps)? {
        Answer::Balanced(table, _) => Ok(Some(value(&table, MAKE))),
        Answer::Infeasible(_) => Ok(None),
    }
}

fn trial(alloc: Global, problem: &Problem) -> Result<Option<i128>, Fail> {
    make_of::<Brand>(alloc, problem, Blank::new(1))
}

/// The value of the make in the answer to the problem of these rows, or none where it is infeasible.
fn answer_to(rt: &impl Abort, alloc: Global, rows: &[RowCase]) -> Result<Option<i128>, Fail> {
    let problem = problem_of(rt, alloc, rows)?;
    let answer = trial(alloc, &problem);
    drop(problem);
    answer
}

fn try_case(rt: &impl Abort, alloc: Global, case: &Case) -> Result<(), Fail> {
    let rows = rows_of(case);
    let answer = answer_to(rt, alloc, &rows)?;
    assert!(rt; answer == case.want);
    Ok(())
}

/// A case without lower bound.
const fn case_of(weight: u32, most: i64, target: i64, penalty: Penalty, want: i128) -> Case {
    Case {
        weight,
        most,
        target,
        penalty,
        least: 0,
        want: Some(want),
    }
}

const INFEASIBLE: Case = Case {
    weight: 1,
    most: 90,
    target: 100,
    penalty: Penalty::Square,
    least: 95,
    want: None,
};

#[test]
fn small_problems(rt: HostRuntime) -> Result<(), Fail> {
    for case in [
        case_of(1, 1000, 104, Penalty::Square, 102),
        case_of(3, 1000, 104, Penalty::Absolute, 100),
        case_of(1, 1000, 104, Penalty::Band(2), 101),
        case_of(1, 90, 80, Penalty::Square, 90),
        INFEASIBLE,
    ] {
        try_case(&rt, rt.alloc(), &case)?;
    }
    Ok(())
}
