//! How far a balanced table lies from the one before it, after one target has moved by 1.

use crate::years::{Year, ends, is_accepted, shelf_with};
use std::alloc::Global;
use std::test::Fail;
use sut_outside::{FileName, MemorySink};
use test_years::FLAT;

/// Two industries may make what is used, so that many tables are least, some of them 100 apart.
const INDUSTRIES: Year<'static> = Year {
    settings: FLAT,
    classes: "axis,code,kind\nproduct,X,plain\nindustry,A,\nindustry,B,\nfinal,F,\nitem,V,\n",
    rows: "make,X,A,,,,0,1000\nmake,X,B,,,,0,1000\nbasic,X,F,,100,,,\nadded,V,A,,,,0,1000\nadded,V,B,,,,0,1000\n",
    edits: "balance,,,,,,,,\nset,basic,X,F,,101,,,\nbalance,,,,,,,,\n",
};

/// The values of the cells, line by line.
fn values_in(alloc: Global, trail: &[u8]) -> Result<Vec<i64>, Fail> {
    let mut values = Vec::new(alloc);
    for line in str::from_utf8(trail)?.lines().skip(1) {
        let (_name, value) = line.rsplit_once(",").ok_or("a line")?;
        values.push(value.parse::<i64>()?)?;
    }
    Ok(values)
}

/// Whether each value of the second table, of five cells each, is within 1 of that of the first.
fn are_near(values: &[i64]) -> bool {
    match (values.get(..5), values.get(5..10)) {
        (Some(before), Some(after)) => {
            values.len() == 10
                && before
                    .iter()
                    .zip(after)
                    .all(|(was, now)| now.abs_diff(*was) <= 1)
        }
        _ => false,
    }
}

#[test]
fn many_least_tables(rt: HostRuntime) -> Result<(), Fail> {
    let mut shelf = shelf_with(rt.alloc(), &INDUSTRIES)?;
    let mut out = MemorySink::new(rt.alloc(), 1000, Vec::new(rt.alloc()))?;
    let status = ends(rt.alloc(), &mut shelf, &mut out)?;
    assert!(rt; status.code() == 0);
    assert!(rt;
        out.text()
            == b"line 2 balanced 0\nline 4 balanced 0\nbalanced\ncost 0\ngdp 101 101 101\n".as_slice()
    );
    let trail = shelf.file(FileName::TrailCsv).ok_or("no trail")?;
    let values = values_in(rt.alloc(), trail)?;
    assert!(rt; are_near(&values));
    assert!(rt; is_accepted(rt.alloc(), &mut shelf, 0, "least\ncost 0\n")?);
    Ok(())
}
