//! Potentials and their table: accepted, refused, and not read.

use crate::written::{Change, GAP, WRITTEN, check_changes, says};
use std::test::Fail;
use sut_outside::FileName;
use test_years::steady;

const OK: &str = "sutcheck: ok\n";

const LEAST: &str = "least\ncost 8\n";

#[test]
fn accepted(rt: HostRuntime) -> Result<(), Fail> {
    let mut shelf = steady(rt.alloc(), &WRITTEN)?;
    assert!(rt; says(rt.alloc(), &[], &mut shelf, OK, LEAST)?);
    let mut empty = steady(
        rt.alloc(),
        &[
            WRITTEN[0],
            WRITTEN[1],
            (FileName::SourceCsv, "kind,a,b,c,target,grade,lower,upper\n"),
            (FileName::CertificateCsv, "account,a,b,potential\n"),
            (FileName::BalancedCsv, "kind,a,b,c,target,value\n"),
        ],
    )?;
    assert!(rt; says(rt.alloc(), &[], &mut empty, OK, "least\ncost 0\n")?);
    Ok(())
}

// With the word `edited` the source is `edited.csv`, and `source.csv` is not read.
#[test]
fn edited(rt: HostRuntime) -> Result<(), Fail> {
    let other = "kind,a,b,c,target,grade,lower,upper\nmake,X,A,,1000000000001,,,\n";
    let bad = "sutcheck: source.csv line 2: out-of-range target\n";
    let mut shelf = steady(rt.alloc(), &WRITTEN)?;
    shelf.place(FileName::SourceCsv, other.as_bytes())?;
    shelf.place(FileName::EditedCsv, GAP.as_bytes())?;
    assert!(rt; says(rt.alloc(), &["edited"], &mut shelf, OK, LEAST)?);
    assert!(rt; says(rt.alloc(), &[], &mut shelf, bad, "")?);
    shelf.place(FileName::EditedCsv, other.as_bytes())?;
    assert!(rt; says(rt.alloc(), &["edited"], &mut shelf, bad, "")?);
    Ok(())
}

const CERTIFICATE: FileName = FileName::CertificateCsv;

// Every account's potential holds something: one more at any of them is refused.
#[test]
fn one_more_at_each_account(rt: HostRuntime) -> Result<(), Fail> {
    let changes: [Change; 10] = [
        (
            CERTIFICATE,
            "supplied,X,,4",
            "supplied,X,,5",
            "sutcheck: refused: bent supply 1 -1\n",
        ),
        (
            CERTIFICATE,
            "used,X,,4",
            "used,X,,5",
            "sutcheck: refused: bent supply 1 1\n",
        ),
        (
            CERTIFICATE,
            "bought,X,F,0",
            "bought,X,F,1",
            "sutcheck: refused: bent purchase 1 final 1 -1\n",
        ),
        (
            CERTIFICATE,
            "adding,A,,0",
            "adding,A,,1",
            "sutcheck: refused: up added 1 1 0 1\n",
        ),
        (
            CERTIFICATE,
            "industry,A,,0",
            "industry,A,,1",
            "sutcheck: refused: bent output 1 -1\n",
        ),
        (
            CERTIFICATE,
            "making,A,,0",
            "making,A,,1",
            "sutcheck: refused: bent output 1 1\n",
        ),
        (
            CERTIFICATE,
            "final,F,,0",
            "final,F,,1",
            "sutcheck: refused: bent purchase 1 final 1 1\n",
        ),
        (
            CERTIFICATE,
            "item,V,,0",
            "item,V,,1",
            "sutcheck: refused: down added 1 1 0 -1\n",
        ),
        (
            CERTIFICATE,
            "spending,,,0",
            "spending,,,1",
            "sutcheck: refused: bent final_total 1 1\n",
        ),
        (
            CERTIFICATE,
            "income,,,0",
            "income,,,1",
            "sutcheck: refused: bent item_total 1 -1\n",
        ),
    ];
    check_changes(&rt, rt.alloc(), &WRITTEN, &changes)
}

#[test]
fn refused(rt: HostRuntime) -> Result<(), Fail> {
    let changes: [Change; 3] = [
        (
            CERTIFICATE,
            "supplied,X,,4",
            "supplied,X,,104",
            "sutcheck: refused: up make 1 1 5 104\n",
        ),
        (
            CERTIFICATE,
            "supplied,X,,4",
            "supplied,X,,2",
            "sutcheck: refused: down make 1 1 3 2\n",
        ),
        (
            FileName::SourceCsv,
            "make,X,A,,100,,,",
            "make,X,A,,100,,0,101",
            "sutcheck: refused: open above make 1 1 102 101\n",
        ),
    ];
    check_changes(&rt, rt.alloc(), &WRITTEN, &changes)
}

const FLAT_TABLE: &str =
    "kind,a,b,c,target,value\nmake,X,A,,100,101\nbasic,X,F,,104,101\nadded,V,A,,,101\npurchase,X,F,,,101\nsupply,X,,,,101\noutput,A,,,,101\nvalue_added,A,,,,101\nitem_total,V,,,,101\nfinal_total,F,,,,101\ngdp,,,,,101\n";

const OPEN_TABLE: &str =
    "kind,a,b,c,target,value\nmake,X,A,,100,103\nbasic,X,F,,104,102\nadded,V,A,,,103\npurchase,X,F,,,102\nsupply,X,,,,103\noutput,A,,,,103\nvalue_added,A,,,,103\nitem_total,V,,,,103\nfinal_total,F,,,,102\ngdp,,,,,102\n";

#[test]
fn other_tables(rt: HostRuntime) -> Result<(), Fail> {
    let tables = [
        (FLAT_TABLE, "sutcheck: refused: up make 1 1 3 4\n"),
        (OPEN_TABLE, "sutcheck: refused: open product 1 103 102\n"),
    ];
    for (table, line) in tables {
        let mut shelf = steady(rt.alloc(), &WRITTEN)?;
        shelf.place(FileName::BalancedCsv, table.as_bytes())?;
        assert!(rt; says(rt.alloc(), &[], &mut shelf, line, "")?, "{line}");
    }
    Ok(())
}

#[test]
fn forged_certificates(rt: HostRuntime) -> Result<(), Fail> {
    let changes: [Change; 7] = [
        (
            CERTIFICATE,
            "spending,,,0\n",
            "",
            "sutcheck: certificate.csv line 10: wrong-account\n",
        ),
        (
            CERTIFICATE,
            "income,,,0\n",
            "",
            "sutcheck: certificate.csv line 11: short\n",
        ),
        (
            CERTIFICATE,
            "supplied,X,,4",
            "supplied,X,,04",
            "sutcheck: certificate.csv line 2: not-number\n",
        ),
        (
            CERTIFICATE,
            "supplied,X,,4",
            "supplied,X,,1000000000000000000000001",
            "sutcheck: certificate.csv line 2: out-of-range\n",
        ),
        (
            CERTIFICATE,
            "account,a,b,potential",
            "account,a",
            "sutcheck: certificate.csv line 1: header\n",
        ),
        (
            CERTIFICATE,
            "used,X,,4",
            "used,Y,,4",
            "sutcheck: certificate.csv line 3: bad-name unknown-code a\n",
        ),
        (
            CERTIFICATE,
            "used,X,,4",
            "used,X,4",
            "sutcheck: certificate.csv line 3: csv\n",
        ),
    ];
    check_changes(&rt, rt.alloc(), &WRITTEN, &changes)
}

#[test]
fn forged_tables(rt: HostRuntime) -> Result<(), Fail> {
    let table = FileName::BalancedCsv;
    let changes: [Change; 5] = [
        (
            table,
            "supply,X,,,,102",
            "supply,X,,,,103",
            "sutcheck: balanced.csv line 6: wrong-total 103 102\n",
        ),
        (
            table,
            "make,X,A,,100,102",
            "make,X,A,,100,103",
            "sutcheck: balanced.csv line 6: wrong-total 102 103\n",
        ),
        (
            table,
            "make,X,A,,100,102",
            "make,X,A,,101,102",
            "sutcheck: balanced.csv line 2: wrong-target\n",
        ),
        (
            table,
            "gdp,,,,,102\n",
            "",
            "sutcheck: balanced.csv line 11: short\n",
        ),
        (
            table,
            "output,A,,,,102\n",
            "",
            "sutcheck: balanced.csv line 7: wrong-measure\n",
        ),
    ];
    check_changes(&rt, rt.alloc(), &WRITTEN, &changes)
}

#[test]
fn faults_of_the_year(rt: HostRuntime) -> Result<(), Fail> {
    let changes: [Change; 4] = [
        (
            FileName::SettingsToml,
            "scheme",
            "schema",
            "sutcheck: settings.toml: unknown-key 1\n",
        ),
        (
            FileName::ClassesCsv,
            "axis,code",
            "axis",
            "sutcheck: classes.csv: header\n",
        ),
        (
            FileName::SourceCsv,
            "make,X,A,,100,,,",
            "make,X,B,,100,,,",
            "sutcheck: source.csv line 2: unknown-code b\n",
        ),
        // a certificate of other accounts
        (
            FileName::SourceCsv,
            "added,V,A,,,,0,1000\n",
            "",
            "sutcheck: certificate.csv line 5: wrong-account\n",
        ),
    ];
    check_changes(&rt, rt.alloc(), &WRITTEN, &changes)
}

#[test]
fn missing(rt: HostRuntime) -> Result<(), Fail> {
    let lines = [
        "sutcheck: missing settings.toml\n",
        "sutcheck: missing classes.csv\n",
        "sutcheck: missing source.csv\n",
        "sutcheck: missing certificate.csv\n",
        "sutcheck: missing balanced.csv\n",
    ];
    for (place, line) in lines.iter().enumerate() {
        let files = WRITTEN.get(..place).ok_or("files")?;
        let mut shelf = steady(rt.alloc(), files)?;
        assert!(rt; says(rt.alloc(), &[], &mut shelf, line, "")?, "{line}");
    }
    Ok(())
}
