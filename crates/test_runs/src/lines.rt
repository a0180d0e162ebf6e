//! Status lines, and the numbers that the program ends with.

use std::alloc::Global;
use std::process::Abort;
use std::test::Fail;
use sut_asks::{AskCause, AskFault};
use sut_classes::{Axis, ClassFault, Column, FinalId, IndustryId, MarginId, ProductId};
use sut_dismissals::{DismissCause, DismissFault};
use sut_edits::{EditsCause, EditsFault};
use sut_measures::{Cell, Field, Measure, NameFault, Total};
use sut_outside::FileName;
use sut_readback::{BalancedCause, BalancedFault};
use sut_run::Status;
use sut_settings::SettingsFault;
use sut_source::{RowFault, SourceFault};
use sut_tables::{Broken, Place};

fn check(rt: &impl Abort, alloc: Global, cases: &[(Status, u8, &'static str)]) -> Result<(), Fail> {
    for (status, code, text) in cases {
        let line = status.line(alloc)?;
        assert!(rt;
            line.as_slice() == text.as_bytes() && status.code() == *code,
            "{text}"
        );
    }
    Ok(())
}

#[test]
fn without_a_fault_of_input(rt: HostRuntime) -> Result<(), Fail> {
    let cases = [
        (Status::Balanced, 0, "sut: ok\n"),
        (Status::Generated, 0, "sut: ok\n"),
        (Status::Migrated, 0, "sut: ok\n"),
        (Status::Published, 0, "sut: ok\n"),
        (Status::Ranged, 0, "sut: ok\n"),
        (Status::Series, 0, "sut: ok\n"),
        (Status::Shared, 0, "sut: ok\n"),
        (Status::NoMemory, 1, "sut: out of memory\n"),
        (Status::Usage, 2, "sut: usage: a command of sut\n"),
        (Status::Infeasible, 3, "sut: infeasible\n"),
        (
            Status::ReadFault(FileName::SourceCsv),
            10,
            "sut: cannot read source.csv\n",
        ),
        (
            Status::WriteFault(FileName::AccountsCsv),
            11,
            "sut: cannot write accounts.csv\n",
        ),
        (
            Status::Missing(FileName::ClassesCsv),
            12,
            "sut: missing classes.csv\n",
        ),
        (Status::SinkFault, 13, "sut: cannot print\n"),
        (
            Status::TooLong(FileName::SettingsToml),
            14,
            "sut: too long settings.toml\n",
        ),
        (
            Status::TooManyPairs(4_000_001),
            19,
            "sut: too many pairs 4000001\n",
        ),
    ];
    check(&rt, rt.alloc(), &cases)
}

#[test]
fn faults_of_settings(rt: HostRuntime) -> Result<(), Fail> {
    let cases = [
        (SettingsFault::Toml, "sut: settings.toml: toml\n"),
        (
            SettingsFault::UnknownKey(2),
            "sut: settings.toml: unknown-key 2\n",
        ),
        (SettingsFault::NoScheme, "sut: settings.toml: no-scheme\n"),
        (SettingsFault::BadScheme, "sut: settings.toml: bad-scheme\n"),
        (SettingsFault::BadGrades, "sut: settings.toml: bad-grades\n"),
        (SettingsFault::TooMany, "sut: settings.toml: too-many\n"),
        (
            SettingsFault::BadGrade(1),
            "sut: settings.toml: bad-grade 1\n",
        ),
    ];
    for (fault, text) in cases {
        check(&rt, rt.alloc(), &[(Status::BadSettings(fault), 5, text)])?;
    }
    Ok(())
}

#[test]
fn faults_of_classes(rt: HostRuntime) -> Result<(), Fail> {
    let cases = [
        (ClassFault::Csv(2), "sut: classes.csv line 2: csv\n"),
        (ClassFault::Header, "sut: classes.csv: header\n"),
        (
            ClassFault::UnknownAxis(3),
            "sut: classes.csv line 3: unknown-axis\n",
        ),
        (
            ClassFault::BadCode(4),
            "sut: classes.csv line 4: bad-code\n",
        ),
        (
            ClassFault::UnknownKind(5),
            "sut: classes.csv line 5: unknown-kind\n",
        ),
        (
            ClassFault::UnknownGroup(6),
            "sut: classes.csv line 6: unknown-group\n",
        ),
        (
            ClassFault::Duplicate(7),
            "sut: classes.csv line 7: duplicate\n",
        ),
        (
            ClassFault::TooMany(Axis::Margin),
            "sut: classes.csv: too-many margin\n",
        ),
        (
            ClassFault::TooMany(Axis::ProductGroup),
            "sut: classes.csv: too-many product_group\n",
        ),
    ];
    for (fault, text) in cases {
        check(&rt, rt.alloc(), &[(Status::BadClasses(fault), 6, text)])?;
    }
    Ok(())
}

#[test]
fn faults_of_rows(rt: HostRuntime) -> Result<(), Fail> {
    let cases = [
        (RowFault::Csv, "sut: source.csv line 2: csv\n"),
        (RowFault::Header, "sut: source.csv line 2: header\n"),
        (
            RowFault::UnknownKind,
            "sut: source.csv line 2: unknown-kind\n",
        ),
        (
            RowFault::UnknownCode(Field::B),
            "sut: source.csv line 2: unknown-code b\n",
        ),
        (
            RowFault::NotEmpty(Field::Grade),
            "sut: source.csv line 2: not-empty grade\n",
        ),
        (
            RowFault::WrongService,
            "sut: source.csv line 2: wrong-service\n",
        ),
        (
            RowFault::NotNumber(Field::Lower),
            "sut: source.csv line 2: not-number lower\n",
        ),
        (
            RowFault::OutOfRange(Field::Target),
            "sut: source.csv line 2: out-of-range target\n",
        ),
        (
            RowFault::UnknownGrade,
            "sut: source.csv line 2: unknown-grade\n",
        ),
        (
            RowFault::BadPenalty,
            "sut: source.csv line 2: bad-penalty\n",
        ),
        (RowFault::NoTarget, "sut: source.csv line 2: no-target\n"),
        (RowFault::Crossed, "sut: source.csv line 2: crossed\n"),
        (
            RowFault::Duplicate(12),
            "sut: source.csv line 2: duplicate 12\n",
        ),
        (RowFault::TooMany, "sut: source.csv line 2: too-many\n"),
    ];
    for (cause, text) in cases {
        let fault = SourceFault { line: 2, cause };
        check(&rt, rt.alloc(), &[(Status::BadSource(fault), 7, text)])?;
    }
    Ok(())
}

#[test]
fn faults_of_edits(rt: HostRuntime) -> Result<(), Fail> {
    let cases = [
        (EditsCause::Csv, "sut: edits.csv line 2: csv\n"),
        (EditsCause::Header, "sut: edits.csv line 2: header\n"),
        (
            EditsCause::UnknownEdit,
            "sut: edits.csv line 2: unknown-edit\n",
        ),
        (
            EditsCause::NotEmpty(Field::Kind),
            "sut: edits.csv line 2: not-empty kind\n",
        ),
        (
            EditsCause::BadRow(RowFault::OutOfRange(Field::Upper)),
            "sut: edits.csv line 2: bad-row out-of-range upper\n",
        ),
        (EditsCause::TooMany, "sut: edits.csv line 2: too-many\n"),
        (EditsCause::NoRow, "sut: edits.csv line 2: no-row\n"),
        (EditsCause::RowThere, "sut: edits.csv line 2: row-there\n"),
        (EditsCause::Full, "sut: edits.csv line 2: full\n"),
        (
            EditsCause::NoReviewer,
            "sut: edits.csv line 2: no-reviewer\n",
        ),
    ];
    for (cause, text) in cases {
        let fault = EditsFault { line: 2, cause };
        check(&rt, rt.alloc(), &[(Status::BadEdits(fault), 8, text)])?;
    }
    Ok(())
}

#[test]
fn faults_of_tables(rt: HostRuntime) -> Result<(), Fail> {
    let cases = [
        (BalancedCause::Csv, "sut: balanced.csv line 11: csv\n"),
        (BalancedCause::Header, "sut: balanced.csv line 11: header\n"),
        (
            BalancedCause::WrongMeasure,
            "sut: balanced.csv line 11: wrong-measure\n",
        ),
        (
            BalancedCause::WrongTarget,
            "sut: balanced.csv line 11: wrong-target\n",
        ),
        (
            BalancedCause::NotNumber,
            "sut: balanced.csv line 11: not-number\n",
        ),
        (
            BalancedCause::OutOfRange,
            "sut: balanced.csv line 11: out-of-range\n",
        ),
        (
            BalancedCause::WrongTotal {
                printed: -7,
                sum: 120,
            },
            "sut: balanced.csv line 11: wrong-total -7 120\n",
        ),
        (BalancedCause::Short, "sut: balanced.csv line 11: short\n"),
    ];
    for (cause, text) in cases {
        let fault = BalancedFault { line: 11, cause };
        check(&rt, rt.alloc(), &[(Status::BadTable(fault), 15, text)])?;
    }
    Ok(())
}

#[test]
fn broken_tables(rt: HostRuntime) -> Result<(), Fail> {
    let used = Cell::Basic(ProductId(2), Column::Final(FinalId(1)));
    let cases = [
        (
            Place::Product(ProductId(0)),
            "sut: not admissible product 1 100 104\n",
        ),
        (
            Place::Industry(IndustryId(255)),
            "sut: not admissible industry 256 100 104\n",
        ),
        (
            Place::Margin(MarginId(3)),
            "sut: not admissible margin 4 100 104\n",
        ),
        (
            Place::Below(Measure::Cell(used)),
            "sut: not admissible below basic 3 final 2 100 104\n",
        ),
        (
            Place::Above(Measure::Total(Total::Gdp)),
            "sut: not admissible above gdp 100 104\n",
        ),
    ];
    for (place, text) in cases {
        let broken = Broken {
            place,
            left: 100,
            right: 104,
        };
        check(
            &rt,
            rt.alloc(),
            &[(Status::NotAdmissible(broken), 16, text)],
        )?;
    }
    Ok(())
}

#[test]
fn faults_of_asks(rt: HostRuntime) -> Result<(), Fail> {
    let cases = [
        (1, AskCause::Header, "sut: asks.csv line 1: header\n"),
        (2, AskCause::Csv, "sut: asks.csv line 2: csv\n"),
        (2, AskCause::NotLive, "sut: asks.csv line 2: not-live\n"),
        (
            3,
            AskCause::BadName(NameFault::UnknownCode(Field::A)),
            "sut: asks.csv line 3: bad-name unknown-code a\n",
        ),
        (
            3,
            AskCause::BadName(NameFault::UnknownKind),
            "sut: asks.csv line 3: bad-name unknown-kind\n",
        ),
        (
            3,
            AskCause::BadName(NameFault::NotEmpty(Field::C)),
            "sut: asks.csv line 3: bad-name not-empty c\n",
        ),
        (
            3,
            AskCause::BadName(NameFault::WrongService),
            "sut: asks.csv line 3: bad-name wrong-service\n",
        ),
        (66, AskCause::TooMany, "sut: asks.csv line 66: too-many\n"),
        (2, AskCause::Short, "sut: asks.csv line 2: short\n"),
    ];
    for (line, cause, text) in cases {
        let fault = AskFault { line, cause };
        check(&rt, rt.alloc(), &[(Status::BadAsks(fault), 17, text)])?;
    }
    Ok(())
}

#[test]
fn faults_of_dismissals(rt: HostRuntime) -> Result<(), Fail> {
    let cases = [
        (DismissCause::Csv, "sut: dismiss.csv line 3: csv\n"),
        (DismissCause::Header, "sut: dismiss.csv line 3: header\n"),
        (
            DismissCause::WrongYear,
            "sut: dismiss.csv line 3: wrong-year\n",
        ),
        (DismissCause::TooMany, "sut: dismiss.csv line 3: too-many\n"),
        (
            DismissCause::NoReviewer,
            "sut: dismiss.csv line 3: no-reviewer\n",
        ),
    ];
    for (cause, text) in cases {
        let fault = DismissFault { line: 3, cause };
        check(&rt, rt.alloc(), &[(Status::BadDismiss(fault), 18, text)])?;
    }
    Ok(())
}

#[test]
fn faults_of_years(rt: HostRuntime) -> Result<(), Fail> {
    let fault = SourceFault {
        line: 2,
        cause: RowFault::OutOfRange(Field::Target),
    };
    let cases = [
        (0, "sut: year 0 line 2: out-of-range target\n"),
        (1, "sut: year1.csv line 2: out-of-range target\n"),
        (2, "sut: year2.csv line 2: out-of-range target\n"),
        (9, "sut: year9.csv line 2: out-of-range target\n"),
        (10, "sut: year 10 line 2: out-of-range target\n"),
        (255, "sut: year 255 line 2: out-of-range target\n"),
    ];
    for (year, text) in cases {
        check(&rt, rt.alloc(), &[(Status::BadYear(year, fault), 20, text)])?;
    }
    Ok(())
}
