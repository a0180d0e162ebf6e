//! Sets of accounts: accepted, refused, and not read. No table is read with them.

use crate::written::{Change, GAP, check_changes, says};
use std::alloc::Global;
use std::test::Fail;
use sut_outside::{FileName, SteadyShelf};
use test_years::{FLAT, SMALL, steady};

/// The make may be 90 at most, the basic has to be 95 at least.
const NARROW: &str =
    "kind,a,b,c,target,grade,lower,upper\nmake,X,A,,100,,0,90\nbasic,X,F,,100,,95,\nadded,V,A,,,,0,1000\n";

const CUT: &str =
    "account,a,b\nbought,X,F\nadding,A,\nindustry,A,\nmaking,A,\nfinal,F,\nitem,V,\nspending,,\nincome,,\n";

const FILES: [(FileName, &'static str); 4] = [
    (FileName::SettingsToml, FLAT),
    (FileName::ClassesCsv, SMALL),
    (FileName::SourceCsv, NARROW),
    (FileName::CertificateCsv, CUT),
];

fn with_set(alloc: Global, source: &str, set: &str) -> Result<SteadyShelf, Fail> {
    let mut shelf = steady(alloc, &FILES)?;
    shelf.place(FileName::SourceCsv, source.as_bytes())?;
    shelf.place(FileName::CertificateCsv, set.as_bytes())?;
    Ok(shelf)
}

/// A total of a product without cells, which has to be 5.
const ALONE: &str = "kind,a,b,c,target,grade,lower,upper\nsupply,X,,,5,,5,5\n";

#[test]
fn sets(rt: HostRuntime) -> Result<(), Fail> {
    let cases = [
        (
            NARROW,
            CUT,
            "sutcheck: ok\n",
            "no table\nentering 95\nleaving 90\n",
        ),
        (
            ALONE,
            "account,a,b\nused,X,\n",
            "sutcheck: ok\n",
            "no table\nentering 5\nleaving 0\n",
        ),
        (
            NARROW,
            "account,a,b\n",
            "sutcheck: refused: no-gap 0 0\n",
            "",
        ),
        (
            GAP,
            "account,a,b\nused,X,\n",
            "sutcheck: refused: crosses supply 1\n",
            "",
        ),
        // a set of all accounts of a year that has tables
        (GAP, CUT, "sutcheck: refused: no-gap 0 1000000000000\n", ""),
    ];
    for (source, set, line, printed) in cases {
        let mut shelf = with_set(rt.alloc(), source, set)?;
        assert!(rt; says(rt.alloc(), &[], &mut shelf, line, printed)?, "{line}");
    }
    Ok(())
}

#[test]
fn forged_sets(rt: HostRuntime) -> Result<(), Fail> {
    let set = FileName::CertificateCsv;
    let changes: [Change; 3] = [
        (
            set,
            "final,F,\n",
            "",
            "sutcheck: refused: crosses purchase 1 final 1\n",
        ),
        (
            set,
            "adding,A,\n",
            "supplied,X,\n",
            "sutcheck: certificate.csv line 3: wrong-account\n",
        ),
        (
            set,
            "spending,,\n",
            "imports,,\n",
            "sutcheck: certificate.csv line 8: wrong-account\n",
        ),
    ];
    check_changes(&rt, rt.alloc(), &FILES, &changes)
}
