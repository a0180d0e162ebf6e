//! The files that runs of edits write.

use crate::years::{AGAIN, HELD, Year, ends, gap_under, is_accepted, shelf_with};
use std::alloc::Global;
use std::test::Fail;
use sut_check::check_run;
use sut_outside::{FileName, MemorySink, SteadyShelf};
use test_years::{SMALL, first_other, words_of};

type Written = (FileName, Option<&'static str>);

// The shelf after the run of this year, on which an older table stood.
fn after(alloc: Global, year: &Year<'_>) -> Result<SteadyShelf, Fail> {
    let mut shelf = shelf_with(alloc, year)?;
    shelf.place(FileName::BalancedCsv, b"old")?;
    let mut out = MemorySink::new(alloc, 1000, Vec::new(alloc))?;
    let _status = ends(alloc, &mut shelf, &mut out)?;
    Ok(shelf)
}

const SOURCE: &str = "kind,a,b,c,target,grade,lower,upper
make,X,A,,80,,,
import,X,,,30,,,
basic,X,F,,70,,,
basic,X,E,,48,,,
added,V,A,,,,0,1000
";

const EDITED: &str = "kind,a,b,c,target,grade,lower,upper
make,X,A,,108,,0,1000000000000
import,X,,,30,,0,1000000000000
basic,X,F,,70,,0,1000000000000
basic,X,E,,48,,0,1000000000000
added,V,A,,,,0,1000
";

const TRAIL: &str = "balance,kind,a,b,c,value
1,make,X,A,,82
1,import,X,,,32
1,basic,X,F,,68
1,basic,X,E,,46
1,added,V,A,,82
2,make,X,A,,103
2,import,X,,,25
2,basic,X,F,,75
2,basic,X,E,,53
2,added,V,A,,103
";

const BALANCED: &str = "kind,a,b,c,target,value
make,X,A,,108,103
import,X,,,30,25
basic,X,F,,70,75
basic,X,E,,48,53
added,V,A,,,103
purchase,X,F,,,75
purchase,X,E,,,53
supply,X,,,,128
output,A,,,,103
value_added,A,,,,103
item_total,V,,,,103
final_total,F,,,,75
final_total,E,,,,53
import_total,,,,,25
gdp,,,,,103
";

const REPORT: &str =
    "{\"answer\":\"balanced\",\"cost\":\"100\",\"gdp\":{\"expenditure\":103,\"income\":103,\"production\":103},\"rows\":5}\n";

// All but the trail and the rows is of the last answer. Without reviewers there is no review.
#[test]
fn balanced_again(rt: HostRuntime) -> Result<(), Fail> {
    let shelf = after(rt.alloc(), &gap_under(AGAIN))?;
    let files: [Written; 6] = [
        (FileName::SourceCsv, Some(SOURCE)),
        (FileName::EditedCsv, Some(EDITED)),
        (FileName::TrailCsv, Some(TRAIL)),
        (FileName::BalancedCsv, Some(BALANCED)),
        (FileName::ReportJson, Some(REPORT)),
        (FileName::ReviewCsv, None),
    ];
    let other = first_other(&shelf, &files);
    assert!(rt; other == None, "{other:?}");
    Ok(())
}

// The table is that of the rows after the edits: against the source as it was its targets are others.
#[test]
fn checked_against_the_source(rt: HostRuntime) -> Result<(), Fail> {
    let mut shelf = after(rt.alloc(), &gap_under(AGAIN))?;
    let words = words_of(rt.alloc(), &[])?;
    let mut out = MemorySink::new(rt.alloc(), 1000, Vec::new(rt.alloc()))?;
    let status = check_run(rt.alloc(), &words, &mut shelf, &mut out);
    let line = status.line(rt.alloc())?;
    assert!(rt; line.as_slice() == b"sutcheck: balanced.csv line 2: wrong-target\n".as_slice());
    Ok(())
}

const HELD_TRAIL: &str = "balance,kind,a,b,c,value
1,make,X,A,,82
1,import,X,,,32
1,basic,X,F,,68
1,basic,X,E,,46
1,added,V,A,,82
3,make,X,A,,82
3,import,X,,,32
3,basic,X,F,,68
3,basic,X,E,,46
3,added,V,A,,82
";

const HELD_EDITED: &str = "kind,a,b,c,target,grade,lower,upper
make,X,A,,80,,0,1000000000000
import,X,,,30,,0,1000000000000
basic,X,F,,70,,0,1000000000000
basic,X,E,,48,,0,1000000000000
added,V,A,,,,0,1000
gdp,,,,,,2000,3000
";

const HELD_REPORT: &str =
    "{\"answer\":\"infeasible\",\"entering\":2000,\"leaving\":1000,\"rows\":6}\n";

// Rows that have no table take a number, and have no lines under it.
#[test]
fn infeasible_between(rt: HostRuntime) -> Result<(), Fail> {
    let shelf = after(rt.alloc(), &gap_under(HELD))?;
    let files: [Written; 1] = [(FileName::TrailCsv, Some(HELD_TRAIL))];
    assert!(rt; first_other(&shelf, &files) == None);
    Ok(())
}

// No table is written, and an older one stays.
#[test]
fn infeasible_at_the_end(rt: HostRuntime) -> Result<(), Fail> {
    let shelf = after(rt.alloc(), &gap_under("add,gdp,,,,,,2000,3000\n"))?;
    let files: [Written; 5] = [
        (FileName::EditedCsv, Some(HELD_EDITED)),
        (FileName::TrailCsv, Some("balance,kind,a,b,c,value\n")),
        (FileName::BalancedCsv, Some("old")),
        (FileName::SupplyCsv, None),
        (FileName::ReportJson, Some(HELD_REPORT)),
    ];
    let other = first_other(&shelf, &files);
    assert!(rt; other == None, "{other:?}");
    Ok(())
}

/// Grades and penalties, and rows of totals. In the one least table all values are 101: make 3 * 1, basic 9, the final use
/// within its band, and supply 106 from its target.
const GRADED: Year<'static> = Year {
    settings: "scheme = \"flat\"\n[grades]\nW = 3\n",
    classes: SMALL,
    rows: "make,X,A,,100,,,\nbasic,X,F,,104,,,\nadded,V,A,,,,0,1000\n",
    edits: "set,make,X,A,,100,W,0,200\nadd,final_total,F,,,102,W:band:1,,\nadd,supply,X,,,-5,:abs,-10,101\n",
};

const GRADED_EDITED: &str = "kind,a,b,c,target,grade,lower,upper
make,X,A,,100,W,0,200
basic,X,F,,104,,0,1000000000000
added,V,A,,,,0,1000
supply,X,,,-5,:abs,-10,101
final_total,F,,,102,W:band:1,0,1000000000000
";

#[test]
fn grades_and_penalties(rt: HostRuntime) -> Result<(), Fail> {
    let mut shelf = after(rt.alloc(), &GRADED)?;
    let files: [Written; 1] = [(FileName::EditedCsv, Some(GRADED_EDITED))];
    assert!(rt; first_other(&shelf, &files) == None);
    assert!(rt; is_accepted(rt.alloc(), &mut shelf, 0, "least\ncost 118\n")?);
    Ok(())
}
