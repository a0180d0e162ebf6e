//! Files at their limits.

use crate::years::{FLAT, SMALL, Year, ends, steady};
use std::alloc::Global;
use std::fmt::Write;
use std::test::Fail;
use sut_outside::{FileName, MemorySink, SteadyShelf};
use sut_run::Status;

// How the balance of this year ends.
fn balance(alloc: Global, year: &Year<'_>) -> Result<Status, Fail> {
    let mut shelf = steady(alloc, year)?;
    let mut out = MemorySink::new(alloc, 1000, Vec::new(alloc))?;
    ends(alloc, &["balance"], &mut shelf, &mut out)
}

// The status line of the run of this year without rows.
fn line_for(alloc: Global, settings: &str, classes: &str) -> Result<Vec<u8>, Fail> {
    let year = Year {
        settings,
        classes,
        rows: "",
    };
    Ok(balance(alloc, &year)?.line(alloc)?)
}

#[test]
fn products(rt: HostRuntime) -> Result<(), Fail> {
    let mut classes = String::from_str(rt.alloc(), "axis,code,kind\n")?;
    for n in 0..512 {
        write!(classes, "product,P{n},plain\n")?;
    }
    let line = line_for(rt.alloc(), FLAT, &classes)?;
    assert!(rt; line.as_slice() == b"sut: ok\n".as_slice());
    write!(classes, "product,P,plain\n")?;
    let line = line_for(rt.alloc(), FLAT, &classes)?;
    assert!(rt; line.as_slice() == b"sut: classes.csv: too-many product\n".as_slice());
    Ok(())
}

#[test]
fn grades(rt: HostRuntime) -> Result<(), Fail> {
    let mut settings = String::from_str(rt.alloc(), "scheme = \"flat\"\n[grades]\n")?;
    for n in 0..64 {
        write!(settings, "G{n} = 1\n")?;
    }
    let line = line_for(rt.alloc(), &settings, SMALL)?;
    assert!(rt; line.as_slice() == b"sut: ok\n".as_slice());
    write!(settings, "G = 1\n")?;
    let line = line_for(rt.alloc(), &settings, SMALL)?;
    assert!(rt; line.as_slice() == b"sut: settings.toml: too-many\n".as_slice());
    Ok(())
}

// 512 products and 32 final uses.
fn many_classes(alloc: Global) -> Result<String, Fail> {
    let mut text = String::from_str(alloc, "axis,code,kind\n")?;
    for n in 0..512 {
        writeln!(text, "product,P{n},plain")?;
    }
    for n in 0..32 {
        writeln!(text, "final,F{n},")?;
    }
    Ok(text)
}

// A row for the purchases of each product by each final use.
fn many_purchases(alloc: Global) -> Result<String, Fail> {
    let mut rows = String::new(alloc);
    for n in 0..16384u32 {
        writeln!(rows, "purchase,P{},F{},,,,0,0", n / 32, n % 32)?;
    }
    Ok(rows)
}

#[test]
fn totals(rt: HostRuntime) -> Result<(), Fail> {
    let classes = many_classes(rt.alloc())?;
    let mut rows = many_purchases(rt.alloc())?;
    rows.push_str("supply,P0,,,,,0,0\n")?;
    let year = Year {
        settings: FLAT,
        classes: &classes,
        rows: &rows,
    };
    let status = balance(rt.alloc(), &year)?;
    let line = status.line(rt.alloc())?;
    assert!(rt;
        line.as_slice() == b"sut: source.csv line 16386: too-many\n".as_slice()
            && status.code() == 7
    );
    Ok(())
}

#[test]
fn file_too_long(rt: HostRuntime) -> Result<(), Fail> {
    let text = vec![in rt.alloc(); b'#'; 67_108_865]?;
    let mut shelf = SteadyShelf::new(rt.alloc());
    shelf.place(FileName::SettingsToml, &text)?;
    let mut out = MemorySink::new(rt.alloc(), 1000, Vec::new(rt.alloc()))?;
    let status = ends(rt.alloc(), &["balance"], &mut shelf, &mut out)?;
    let line = status.line(rt.alloc())?;
    assert!(rt;
        line.as_slice() == b"sut: too long settings.toml\n".as_slice() && status.code() == 14
    );
    Ok(())
}
