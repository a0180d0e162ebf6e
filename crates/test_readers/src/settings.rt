//! Settings that are read, and the first faults of others.

use std::alloc::{AllocError, Global};
use std::fmt::Write;
use std::process::Abort;
use std::test::Fail;
use sut_settings::{SettingsFault, read_settings, weight_of};

/// The fault of a text; none where it is settings.
fn fault_of(alloc: Global, text: &[u8]) -> Option<SettingsFault> {
    read_settings(alloc, text).err()
}

/// A text, and its fault.
type Case<'a> = (&'a [u8], Option<SettingsFault>);

const CASES: [Case; 7] = [
    (b"scheme = \"flat\"\n", None),
    (
        b"\xEF\xBB\xBFscheme = \"relative\"\n[grades]\nH = 100\n",
        None,
    ),
    (
        b"scheme = \"flat\"\n[grades]\nA = 10001\n",
        Some(SettingsFault::BadGrade(1)),
    ),
    (b"scheme = \"x\"\n", Some(SettingsFault::BadScheme)),
    (
        b"x = 1\nscheme = \"flat\"\n",
        Some(SettingsFault::UnknownKey(2)),
    ),
    (b"scheme\n", Some(SettingsFault::Toml)),
    (b"\xFF", Some(SettingsFault::Toml)),
];

#[test]
fn settings_and_their_faults(rt: HostRuntime) {
    for (text, want) in CASES {
        assert_eq!(rt; fault_of(rt.alloc(), text), want, "{text:?}");
    }
}

/// Tests the weights of some grades at some targets.
fn check_weights(
    rt: &impl Abort,
    alloc: Global,
    text: &[u8],
    cases: &[(&[u8], i64, Option<u32>)],
) -> Result<(), Fail> {
    let Ok(settings) = read_settings(alloc, text) else {
        return Err(Fail::from("not read"));
    };
    for &(grade, target, want) in cases {
        assert!(rt; target >= 0 && target <= 3);
        assert_eq!(rt; weight_of(&settings, grade, target), want, "{target}");
    }
    Ok(())
}

#[test]
fn relative_weights(rt: HostRuntime) -> Result<(), Fail> {
    let text = b"scheme = \"relative\"\n[grades]\nH = 100\n";
    let cases: [(&[u8], i64, Option<u32>); 3] = [
        (b"H", 0, Some(10_000)),
        (b"H", 3, Some(3_333)),
        (b"Q", 3, None),
    ];
    check_weights(&rt, rt.alloc(), text, &cases)
}

/// Settings with this many grades.
fn with_grades(alloc: Global, count: u32) -> Result<String, AllocError> {
    let mut text = String::from_str(alloc, "scheme = \"flat\"\n[grades]\n")?;
    for n in 0..count {
        if writeln!(text, "G{n} = 1").is_err() {
            return Err(AllocError);
        }
    }
    Ok(text)
}

#[test]
fn too_many_grades(rt: HostRuntime) -> Result<(), Fail> {
    let text = with_grades(rt.alloc(), 65)?;
    let want = Some(SettingsFault::TooMany);
    assert_eq!(rt; fault_of(rt.alloc(), text.as_bytes()), want);
    Ok(())
}
