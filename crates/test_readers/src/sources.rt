//! Worked sources.

use std::alloc::Global;
use std::test::Fail;
use sut_classes::{Classes, read_classes};
use sut_measures::Field;
use sut_settings::{Settings, read_settings};
use sut_source::{RowFault, SourceFault, read_source};

// One product, one industry, one final use, one item.
const CLASSES: &[u8] = b"axis,code,kind\nproduct,X,plain\nindustry,A,\nfinal,F,\nitem,V,\n";

const HEADER: &[u8] = b"kind,a,b,c,target,grade,lower,upper\n";

fn joined(alloc: Global, head: &[u8], rest: &[u8]) -> Result<Vec<u8>, Fail> {
    let mut text = Vec::from_slice(alloc, head)?;
    text.extend_from_slice(rest)?;
    Ok(text)
}

fn source_fails(
    alloc: Global,
    settings: &Settings,
    classes: Classes,
    source: &[u8],
    fault: SourceFault,
) -> bool {
    match read_source(alloc, settings, classes, source) {
        Ok(_) => false,
        Err(found) => found == fault,
    }
}

fn fails_under(
    alloc: Global,
    settings: &Settings,
    classes: &[u8],
    source: &[u8],
    fault: SourceFault,
) -> bool {
    match read_classes(alloc, classes) {
        Ok(classes) => source_fails(alloc, settings, classes, source, fault),
        Err(_) => false,
    }
}

// Whether this is the first fault of a source under these classes, without grades.
fn fails(alloc: Global, classes: &[u8], source: &[u8], fault: SourceFault) -> bool {
    match read_settings(alloc, b"scheme = \"flat\"\n") {
        Ok(settings) => fails_under(alloc, &settings, classes, source, fault),
        Err(_) => false,
    }
}

// Whether rows under the small classes have this first fault.
fn row_fails(alloc: Global, rows: &[u8], line: u64, cause: RowFault) -> Result<bool, Fail> {
    let source = joined(alloc, HEADER, rows)?;
    Ok(fails(alloc, CLASSES, &source, SourceFault { line, cause }))
}

#[test]
fn faults_of_lines(rt: HostRuntime) -> Result<(), Fail> {
    let out_of_range = b"make,X,A,,1000000000001,,,\n";
    assert!(rt;
        row_fails(
            rt.alloc(),
            out_of_range,
            2,
            RowFault::OutOfRange(Field::Target)
        )?
    );
    let twice = b"make,X,A,,1,,,\nmake,X,A,,1,,,\n";
    assert!(rt; row_fails(rt.alloc(), twice, 3, RowFault::Duplicate(2))?);
    let cut = b"make,X,A,,100,,,\nbasic,X,F";
    assert!(rt; row_fails(rt.alloc(), cut, 3, RowFault::Csv)?);
    Ok(())
}

#[test]
fn faults_of_penalties(rt: HostRuntime) -> Result<(), Fail> {
    let rows = [
        "basic,X,F,,104,:abc,,\n",
        "basic,X,F,,104,:band:007,,\n",
        "basic,X,F,,104,:band:1000000000001,,\n",
        "basic,X,F,,104,:,,\n",
        "basic,X,F,,104,:band:,,\n",
        "basic,X,F,,104,:band:1:2,,\n",
        "basic,X,F,,104,:band:-0,,\n",
    ];
    for row in rows {
        assert!(rt;
            row_fails(rt.alloc(), row.as_bytes(), 2, RowFault::BadPenalty)?,
            "{row}"
        );
    }
    Ok(())
}

#[test]
fn other_faults_of_rows(rt: HostRuntime) -> Result<(), Fail> {
    let no_grade = b"basic,X,F,,104,Z:abs,,\n";
    assert!(rt; row_fails(rt.alloc(), no_grade, 2, RowFault::UnknownGrade)?);
    let group = b"make_group,X,A,,1,,,\n";
    assert!(rt; row_fails(rt.alloc(), group, 2, RowFault::UnknownKind)?);
    let crossed = b"make,X,A,,1,,5,4\n";
    assert!(rt; row_fails(rt.alloc(), crossed, 2, RowFault::Crossed)?);
    Ok(())
}

// 512 products and 32 final uses.
fn many_classes(alloc: Global) -> Result<String, Fail> {
    let mut text = String::from_str(alloc, "axis,code,kind\nindustry,A,\n")?;
    for n in 0..512u32 {
        writeln!(text, "product,P{n},plain")?;
    }
    for n in 0..32u32 {
        writeln!(text, "final,F{n},")?;
    }
    Ok(text)
}

// A row for the purchases of each product by each final use, and one row more of a total.
fn many_totals(alloc: Global) -> Result<String, Fail> {
    let mut text = String::from_str(alloc, "kind,a,b,c,target,grade,lower,upper\n")?;
    for n in 0..16384u32 {
        writeln!(text, "purchase,P{},F{},,,,0,0", n / 32, n % 32)?;
    }
    text.push_str("supply,P0,,,,,0,0\n")?;
    Ok(text)
}

#[test]
fn too_many_totals(rt: HostRuntime) -> Result<(), Fail> {
    let classes = many_classes(rt.alloc())?;
    let source = many_totals(rt.alloc())?;
    let fault = SourceFault {
        line: 16386,
        cause: RowFault::TooMany,
    };
    assert!(rt; fails(rt.alloc(), classes.as_bytes(), source.as_bytes(), fault));
    Ok(())
}
