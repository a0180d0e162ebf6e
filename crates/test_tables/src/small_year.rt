//! A small year: one product, one industry, one final use and one item.

use std::alloc::Global;
use std::process::Abort;
use std::test::Fail;
use sut_classes::{Column, FinalId, IndustryId, ItemId, ProductId, read_classes};
use sut_measures::{Cell, Measure, fits};
use sut_tables::{Penalty, Problem, Row};

const CLASSES: &[u8] = b"axis,code,kind\nproduct,X,plain\nindustry,A,\nfinal,F,\nitem,V,\n";

/// The final use, which buys.
pub(crate) const BOUGHT: Column = Column::Final(FinalId(0));

pub(crate) const MAKE: Measure = Measure::Cell(Cell::Make(ProductId(0), IndustryId(0)));

pub(crate) const BASIC: Measure = Measure::Cell(Cell::Basic(ProductId(0), BOUGHT));

pub(crate) const ADDED: Measure = Measure::Cell(Cell::Added(ItemId(0), IndustryId(0)));

/// A measure with a target and both bounds.
pub(crate) type RowCase = (Measure, i64, i64, i64);

/// A make, a purchase and an added item, each aimed at 100.
pub(crate) const AIMED: &[RowCase] = &[
    (MAKE, 100, 0, 1000),
    (BASIC, 100, 0, 1000),
    (ADDED, 100, 0, 1000),
];

/// The problem of these rows, each of weight 1.
pub(crate) fn problem_of(
    rt: &impl Abort,
    alloc: Global,
    rows: &[RowCase],
) -> Result<Problem, Fail> {
    let classes = read_classes(alloc, CLASSES).ok().ok_or("classes")?;
    let mut problem = Problem::new(alloc, classes);
    for &(measure, target, lower, upper) in rows {
        let row = Row::new(measure, Some(target), Penalty::Square, 0, 1, lower, upper).ok_or(
            "a row",
        )?;
        assert!(rt; fits(problem.classes(), row.measure()));
        assert!(rt; problem.add(row).is_ok());
    }
    Ok(problem)
}
