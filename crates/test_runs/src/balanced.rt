//! Worked sources that balance: what the run prints, and how `balanced.csv` begins.

use crate::years::{FLAT, SMALL, Year, ends, steady};
use std::alloc::Global;
use std::process::Abort;
use std::test::Fail;
use sut_outside::{FileName, MemorySink};
use test_years::FINALS;

/// A year, the printed lines of its run, and the lines with which `balanced.csv` begins: those of the cells.
#[derive(Clone, Copy)]
struct Case {
    settings: &'static str,
    classes: &'static str,
    rows: &'static str,
    printed: &'static str,
    cells: &'static str,
}

const HEADER: &str = "kind,a,b,c,target,value\n";

/// A product G, and a product T that makes the services of the margin TR.
const TRADE: &str =
    "axis,code,kind\nmargin,TR,\nproduct,G,plain\nproduct,T,TR\nindustry,A,\nindustry,B,\nfinal,F,\nitem,V,\n";

/// A tax and a subsidy.
const TAXES: &str =
    "axis,code,kind\nproduct,X,plain\nindustry,A,\nfinal,F,\nitem,V,\ntax,VAT,\ntax,SUB,\n";

/// Two products in one group.
const GROUPS: &str =
    "axis,code,kind,group\nproduct_group,G,,\nproduct,X,plain,G\nproduct,Y,plain,G\nindustry,A,,\nfinal,F,,\nitem,V,,\n";

/// A grade of weight 3.
const GRADED: &str = "scheme = \"flat\"\n[grades]\nW = 3\n";

/// The greatest grade of the relative scheme.
const RELATIVE: &str = "scheme = \"relative\"\n[grades]\nH = 100\n";

fn passes(alloc: Global, case: &Case) -> Result<bool, Fail> {
    let year = Year {
        settings: case.settings,
        classes: case.classes,
        rows: case.rows,
    };
    let mut shelf = steady(alloc, &year)?;
    let mut out = MemorySink::new(alloc, 1000, Vec::new(alloc))?;
    let status = ends(alloc, &["balance"], &mut shelf, &mut out)?;
    let begins = shelf
        .file(FileName::BalancedCsv)
        .and_then(|text| text.strip_prefix(HEADER.as_bytes()))
        .is_some_and(|lines| lines.starts_with(case.cells.as_bytes()));
    Ok(status.code() == 0 && out.text() == case.printed.as_bytes() && begins)
}

fn check(rt: &impl Abort, alloc: Global, cases: &[Case]) -> Result<(), Fail> {
    for case in cases {
        assert!(rt; passes(alloc, case)?, "{}", case.rows);
    }
    Ok(())
}

#[test]
fn one_product(rt: HostRuntime) -> Result<(), Fail> {
    let cases = [
        Case {
            settings: FLAT,
            classes: SMALL,
            rows: "",
            printed: "balanced\ncost 0\ngdp 0 0 0\n",
            cells: "",
        },
        Case {
            settings: FLAT,
            classes: SMALL,
            rows: "make,X,A,,100,,,\nbasic,X,F,,100,,,\nadded,V,A,,100,,,\n",
            printed: "balanced\ncost 0\ngdp 100 100 100\n",
            cells: "make,X,A,,100,100\nbasic,X,F,,100,100\nadded,V,A,,100,100\n",
        },
        Case {
            settings: FLAT,
            classes: SMALL,
            rows: "make,X,A,,100,,,\nbasic,X,F,,104,,,\nadded,V,A,,100,,,\n",
            printed: "balanced\ncost 11\ngdp 101 101 101\n",
            cells: "make,X,A,,100,101\nbasic,X,F,,104,101\nadded,V,A,,100,101\n",
        },
        Case {
            settings: FLAT,
            classes: SMALL,
            rows: "import,X,,,1,,,\nadded,V,A,,,,0,1000\n",
            printed: "balanced\ncost 1\ngdp 0 0 0\n",
            cells: "import,X,,,1,0\nadded,V,A,,,0\n",
        },
        Case {
            settings: FLAT,
            classes: SMALL,
            rows: "make,X,A,,100,,,\nbasic,X,A,,40,,,\nbasic,X,F,,60,,,\nadded,V,A,,60,,,\n",
            printed: "balanced\ncost 0\ngdp 60 60 60\n",
            cells: "make,X,A,,100,100\nbasic,X,A,,40,40\nbasic,X,F,,60,60\nadded,V,A,,60,60\n",
        },
    ];
    check(&rt, rt.alloc(), &cases)
}

#[test]
fn weights_bounds_and_penalties(rt: HostRuntime) -> Result<(), Fail> {
    let cases = [
        Case {
            settings: GRADED,
            classes: SMALL,
            rows: "make,X,A,,100,W,,\nbasic,X,F,,104,,,\nadded,V,A,,,,0,1000\n",
            printed: "balanced\ncost 12\ngdp 101 101 101\n",
            cells: "make,X,A,,100,101\nbasic,X,F,,104,101\nadded,V,A,,,101\n",
        },
        Case {
            settings: RELATIVE,
            classes: SMALL,
            rows: "make,X,A,,0,H,,\nbasic,X,F,,3,H,,\nadded,V,A,,,,0,1000\n",
            printed: "balanced\ncost 23332\ngdp 1 1 1\n",
            cells: "make,X,A,,0,1\nbasic,X,F,,3,1\nadded,V,A,,,1\n",
        },
        Case {
            settings: FLAT,
            classes: SMALL,
            rows: "make,X,A,,100,,0,90\nbasic,X,F,,80,,,\nadded,V,A,,,,0,1000\n",
            printed: "balanced\ncost 200\ngdp 90 90 90\n",
            cells: "make,X,A,,100,90\nbasic,X,F,,80,90\nadded,V,A,,,90\n",
        },
        Case {
            settings: FLAT,
            classes: SMALL,
            rows: "make,X,A,,100,,0,90\nbasic,X,F,,100,,,\nadded,V,A,,100,,,\n",
            printed: "balanced\ncost 300\ngdp 90 90 90\n",
            cells: "make,X,A,,100,90\nbasic,X,F,,100,90\nadded,V,A,,100,90\n",
        },
        Case {
            settings: GRADED,
            classes: SMALL,
            rows: "make,X,A,,100,W,,\nbasic,X,F,,104,:abs,,\nadded,V,A,,,,0,1000\n",
            printed: "balanced\ncost 4\ngdp 100 100 100\n",
            cells: "make,X,A,,100,100\nbasic,X,F,,104,100\nadded,V,A,,,100\n",
        },
        Case {
            settings: FLAT,
            classes: SMALL,
            rows: "make,X,A,,100,,,\nbasic,X,F,,104,:band:2,,\nadded,V,A,,,,0,1000\n",
            printed: "balanced\ncost 2\ngdp 101 101 101\n",
            cells: "make,X,A,,100,101\nbasic,X,F,,104,101\nadded,V,A,,,101\n",
        },
    ];
    check(&rt, rt.alloc(), &cases)
}

#[test]
fn margins(rt: HostRuntime) -> Result<(), Fail> {
    let cases = [
        Case {
            settings: FLAT,
            classes: TRADE,
            rows: "make,G,A,,100,,,\nbasic,G,F,,100,,,\nmake,T,B,,20,,,\nservice,T,TR,,,,0,1000\nmargin,TR,G,F,24,,,\nadded,V,A,,,,0,1000\nadded,V,B,,,,0,1000\n",
            printed: "balanced\ncost 8\ngdp 122 122 122\n",
            cells: "make,G,A,,100,100\nmake,T,B,,20,22\nbasic,G,F,,100,100\nmargin,TR,G,F,24,22\nservice,T,TR,,,22\nadded,V,A,,,100\nadded,V,B,,,22\npurchase,G,F,,,122\n",
        },
        Case {
            settings: FLAT,
            classes: TRADE,
            rows: "make,G,A,,100,,,\nbasic,G,F,,100,,,\nmake,T,B,,22,,,\nservice,T,TR,,22,,,\nmargin,TR,G,F,22,,,\nadded,V,A,,100,,,\nadded,V,B,,22,,,\n",
            printed: "balanced\ncost 0\ngdp 122 122 122\n",
            cells: "make,G,A,,100,100\nmake,T,B,,22,22\nbasic,G,F,,100,100\nmargin,TR,G,F,22,22\nservice,T,TR,,22,22\nadded,V,A,,100,100\nadded,V,B,,22,22\npurchase,G,F,,,122\n",
        },
        // No services: the margin, and with it all that the trade makes, is 0.
        Case {
            settings: FLAT,
            classes: TRADE,
            rows: "make,G,A,,100,,,\nbasic,G,F,,100,,,\nmake,T,B,,22,,,\nmargin,TR,G,F,22,,,\nadded,V,A,,100,,,\nadded,V,B,,22,,,\n",
            printed: "balanced\ncost 1452\ngdp 100 100 100\n",
            cells: "make,G,A,,100,100\nmake,T,B,,22,0\nbasic,G,F,,100,100\nmargin,TR,G,F,22,0\nadded,V,A,,100,100\nadded,V,B,,22,0\npurchase,G,F,,,100\n",
        },
    ];
    check(&rt, rt.alloc(), &cases)
}

#[test]
fn imports_taxes_and_groups(rt: HostRuntime) -> Result<(), Fail> {
    let cases = [
        Case {
            settings: FLAT,
            classes: FINALS,
            rows: "make,X,A,,80,,,\nimport,X,,,30,,,\nbasic,X,F,,70,,,\nbasic,X,E,,48,,,\nadded,V,A,,,,0,1000\n",
            printed: "balanced\ncost 16\ngdp 82 82 82\n",
            cells: "make,X,A,,80,82\nimport,X,,,30,32\nbasic,X,F,,70,68\nbasic,X,E,,48,46\nadded,V,A,,,82\n",
        },
        Case {
            settings: FLAT,
            classes: TAXES,
            rows: "make,X,A,,100,,100,100\nbasic,X,F,,100,,100,100\ntax,VAT,X,F,15,,,\ntax_total,VAT,,,19,,,\ntax,SUB,X,F,-5,,-5,-5\nadded,V,A,,,,0,1000\n",
            printed: "balanced\ncost 8\ngdp 112 112 112\n",
            cells: "make,X,A,,100,100\nbasic,X,F,,100,100\ntax,VAT,X,F,15,17\ntax,SUB,X,F,-5,-5\nadded,V,A,,,100\npurchase,X,F,,,112\n",
        },
        Case {
            settings: FLAT,
            classes: TAXES,
            rows: "make,X,A,,100,,,\nbasic,X,F,,100,,,\ntax,VAT,X,F,17,,,\ntax,SUB,X,F,-5,,,\nadded,V,A,,100,,,\n",
            printed: "balanced\ncost 0\ngdp 112 112 112\n",
            cells: "make,X,A,,100,100\nbasic,X,F,,100,100\ntax,VAT,X,F,17,17\ntax,SUB,X,F,-5,-5\nadded,V,A,,100,100\npurchase,X,F,,,112\n",
        },
        Case {
            settings: FLAT,
            classes: GROUPS,
            rows: "make,X,A,,100,,,\nmake,Y,A,,100,,,\nbasic,X,F,,100,,,\nbasic,Y,F,,100,,,\nmake_group,G,A,,208,,,\nadded,V,A,,,,0,1000\n",
            printed: "balanced\ncost 32\ngdp 204 204 204\n",
            cells: "make,X,A,,100,102\nmake,Y,A,,100,102\nbasic,X,F,,100,102\nbasic,Y,F,,100,102\nadded,V,A,,,204\n",
        },
    ];
    check(&rt, rt.alloc(), &cases)
}

/// A year of random numbers, with more supply than use by 5,290: the import of 758 goes to 0, and of five other cells two
/// move by 907 and three by 906.
const DRAWN: &str =
    "axis,code,kind\nmargin,T,\nproduct,P,T\nindustry,I,\nfinal,F,\nfinal,G,\nfinal,H,\nitem,V,\ntax,X,\n";

const DRAWN_ROWS: &str =
    "make,P,I,,8838,,,\nimport,P,,,758,,,\nbasic,P,I,,113,,,\nbasic,P,F,,1515,,,\nbasic,P,G,,1051,,,\nbasic,P,H,,1627,,,\ntax,X,P,F,10,,,\nservice,P,T,,,,0,1000000000000\nadded,V,I,,,,-1000000000000,1000000000000\n";

// Which of the least tables is written is free; the cost is not.
#[test]
fn several_least_tables(rt: HostRuntime) -> Result<(), Fail> {
    let cases = [
        (
            SMALL,
            "make,X,A,,100,,,\nbasic,X,F,,101,,,\nadded,V,A,,,,0,1000\n",
            "balanced\ncost 1\ngdp 10",
        ),
        (DRAWN, DRAWN_ROWS, "balanced\ncost 4682370\n"),
    ];
    for (classes, rows, printed) in cases {
        let year = Year {
            settings: FLAT,
            classes,
            rows,
        };
        let mut shelf = steady(rt.alloc(), &year)?;
        let mut out = MemorySink::new(rt.alloc(), 1000, Vec::new(rt.alloc()))?;
        let status = ends(rt.alloc(), &["balance"], &mut shelf, &mut out)?;
        assert!(rt; status.code() == 0 && out.text().starts_with(printed.as_bytes()));
    }
    Ok(())
}
