//! Worked sources that do not balance, and files that are refused: the status line, and what is printed.

use crate::years::{FLAT, SMALL, Year, ends, steady};
use std::alloc::Global;
use std::process::Abort;
use std::test::Fail;
use sut_outside::{FileName, MemorySink, SteadyShelf};

/// A year, the status line of its run, and the printed lines.
#[derive(Clone, Copy)]
struct Case {
    settings: &'static str,
    classes: &'static str,
    rows: &'static str,
    line: &'static str,
    printed: &'static str,
}

/// Two products in one group.
const GROUPS: &str =
    "axis,code,kind,group\nproduct_group,G,,\nproduct,X,plain,G\nproduct,Y,plain,G\nindustry,A,,\nfinal,F,,\nitem,V,,\n";

fn passes(alloc: Global, case: &Case) -> Result<bool, Fail> {
    let year = Year {
        settings: case.settings,
        classes: case.classes,
        rows: case.rows,
    };
    let mut shelf = steady(alloc, &year)?;
    let mut out = MemorySink::new(alloc, 1000, Vec::new(alloc))?;
    let status = ends(alloc, &["balance"], &mut shelf, &mut out)?;
    let line = status.line(alloc)?;
    let has_table = shelf.file(FileName::BalancedCsv).is_some();
    Ok(
        line.as_slice() == case.line.as_bytes()
            && out.text() == case.printed.as_bytes()
            && !has_table,
    )
}

fn check(rt: &impl Abort, alloc: Global, cases: &[Case]) -> Result<(), Fail> {
    for case in cases {
        assert!(rt; passes(alloc, case)?, "{}", case.line);
    }
    Ok(())
}

#[test]
fn contradicting_bounds(rt: HostRuntime) -> Result<(), Fail> {
    let cases = [
        Case {
            settings: FLAT,
            classes: SMALL,
            rows: "make,X,A,,100,,0,90\nbasic,X,F,,100,,95,\nadded,V,A,,,,0,1000\n",
            line: "sut: infeasible\n",
            printed: "infeasible\nentering 95\nleaving 90\n",
        },
        Case {
            settings: FLAT,
            classes: SMALL,
            rows: "supply,X,,,5,,5,5\n",
            line: "sut: infeasible\n",
            printed: "infeasible\nentering 5\nleaving 0\n",
        },
        Case {
            settings: FLAT,
            classes: SMALL,
            rows: "supply,X,,,,,5,5\n",
            line: "sut: infeasible\n",
            printed: "infeasible\nentering 5\nleaving 0\n",
        },
        Case {
            settings: FLAT,
            classes: GROUPS,
            rows: "make,X,A,,100,,,\nmake,Y,A,,100,,,\nbasic,X,F,,100,,100,100\nbasic,Y,F,,100,,100,100\npurchase_group,G,F,,,,0,150\nadded,V,A,,,,0,1000\n",
            line: "sut: infeasible\n",
            printed: "infeasible\nentering 200\nleaving 150\n",
        },
    ];
    check(&rt, rt.alloc(), &cases)
}

#[test]
fn bad_settings_and_classes(rt: HostRuntime) -> Result<(), Fail> {
    let cases = [
        Case {
            settings: "scheme = \"flat\"\n[grades]\nA = 10001\n",
            classes: SMALL,
            rows: "",
            line: "sut: settings.toml: bad-grade 1\n",
            printed: "",
        },
        Case {
            settings: FLAT,
            classes: "axis,code,kind\nproduct,T,TR\nmargin,TR,\n",
            rows: "",
            line: "sut: classes.csv line 2: unknown-kind\n",
            printed: "",
        },
        Case {
            settings: FLAT,
            classes: "axis,code,kind,group\nproduct,X,plain,G\n",
            rows: "",
            line: "sut: classes.csv line 2: unknown-group\n",
            printed: "",
        },
        // The settings are read first, and the classes before the source.
        Case {
            settings: "",
            classes: "",
            rows: "x",
            line: "sut: settings.toml: no-scheme\n",
            printed: "",
        },
        Case {
            settings: FLAT,
            classes: "",
            rows: "x",
            line: "sut: classes.csv: header\n",
            printed: "",
        },
    ];
    check(&rt, rt.alloc(), &cases)
}

#[test]
fn bad_sources(rt: HostRuntime) -> Result<(), Fail> {
    let pairs: [(&'static str, &'static str); 10] = [
        (
            "make,X,A,,1000000000001,,,\n",
            "sut: source.csv line 2: out-of-range target\n",
        ),
        (
            "make,X,A,,1,,,\nmake,X,A,,1,,,\n",
            "sut: source.csv line 3: duplicate 2\n",
        ),
        (
            "make,X,A,,100,,,\nbasic,X,F",
            "sut: source.csv line 3: csv\n",
        ),
        (
            "make_group,X,A,,1,,,\n",
            "sut: source.csv line 2: unknown-kind\n",
        ),
        (
            "make,X,A,,100,,,\nbasic,X,F,,104,:abc,,\n",
            "sut: source.csv line 3: bad-penalty\n",
        ),
        (
            "make,X,A,,100,,,\nbasic,X,F,,104,:band:007,,\n",
            "sut: source.csv line 3: bad-penalty\n",
        ),
        (
            "make,X,A,,100,,,\nbasic,X,F,,104,:band:1000000000001,,\n",
            "sut: source.csv line 3: bad-penalty\n",
        ),
        (
            "make,X,A,,100,,,\nbasic,X,F,,104,Z:abs,,\n",
            "sut: source.csv line 3: unknown-grade\n",
        ),
        ("make,X,A,,,,1,\n", "sut: source.csv line 2: no-target\n"),
        ("make,X,A,,1,,3,2\n", "sut: source.csv line 2: crossed\n"),
    ];
    for (rows, line) in pairs {
        let case = Case {
            settings: FLAT,
            classes: SMALL,
            rows,
            line,
            printed: "",
        };
        assert!(rt; passes(rt.alloc(), &case)?, "{}", line);
    }
    Ok(())
}

// The first of the files that is not there.
#[test]
fn missing_files(rt: HostRuntime) -> Result<(), Fail> {
    let files = [
        (FileName::SettingsToml, FLAT),
        (FileName::ClassesCsv, SMALL),
        (FileName::SourceCsv, "x"),
    ];
    let lines: [&'static str; 3] = [
        "sut: missing settings.toml\n",
        "sut: missing classes.csv\n",
        "sut: missing source.csv\n",
    ];
    for (absent, want) in lines.iter().enumerate() {
        let mut shelf = SteadyShelf::new(rt.alloc());
        for (name, text) in files.iter().take(absent) {
            shelf.place(*name, text.as_bytes())?;
        }
        let mut out = MemorySink::new(rt.alloc(), 1000, Vec::new(rt.alloc()))?;
        let status = ends(rt.alloc(), &["balance"], &mut shelf, &mut out)?;
        let line = status.line(rt.alloc())?;
        assert!(rt;
            line.as_slice() == want.as_bytes() && status.code() == 12 && out.text().is_empty()
        );
    }
    Ok(())
}
