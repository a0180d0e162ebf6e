//! Status lines, and the numbers that the program ends with.

use std::alloc::Global;
use std::process::Abort;
use std::test::Fail;
use sut_cert::{CertCause, CertFault};
use sut_check::CheckStatus;
use sut_classes::{Axis, ClassFault, Column, FinalId, IndustryId, MarginId, ProductId};
use sut_measures::{Account, Cell, Field, Measure, NameFault, Total};
use sut_outside::FileName;
use sut_readback::{BalancedCause, BalancedFault};
use sut_settings::SettingsFault;
use sut_source::{RowFault, SourceFault};
use sut_tables::{Broken, Place};
use sut_verify::Reason;

fn check(
    rt: &impl Abort,
    alloc: Global,
    cases: &[(CheckStatus, u8, &'static str)],
) -> Result<(), Fail> {
    for (status, code, text) in cases {
        let line = status.line(alloc)?;
        assert!(rt;
            line.as_slice() == text.as_bytes() && status.code() == *code,
            "{text}"
        );
    }
    Ok(())
}

#[test]
fn each_status(rt: HostRuntime) -> Result<(), Fail> {
    let source = SourceFault {
        line: 3,
        cause: RowFault::Duplicate(2),
    };
    let cases = [
        (CheckStatus::Least, 0, "sutcheck: ok\n"),
        (CheckStatus::NoMemory, 1, "sutcheck: out of memory\n"),
        (
            CheckStatus::Usage,
            2,
            "sutcheck: usage: no word, or edited\n",
        ),
        (CheckStatus::NoTable, 3, "sutcheck: ok\n"),
        (
            CheckStatus::BadSettings(SettingsFault::BadGrade(1)),
            5,
            "sutcheck: settings.toml: bad-grade 1\n",
        ),
        (
            CheckStatus::BadClasses(ClassFault::TooMany(Axis::Tax)),
            6,
            "sutcheck: classes.csv: too-many tax\n",
        ),
        (
            CheckStatus::BadSource(source),
            7,
            "sutcheck: source.csv line 3: duplicate 2\n",
        ),
        (
            CheckStatus::ReadFault(FileName::BalancedCsv),
            10,
            "sutcheck: cannot read balanced.csv\n",
        ),
        (
            CheckStatus::Missing(FileName::EditedCsv),
            12,
            "sutcheck: missing edited.csv\n",
        ),
        (CheckStatus::SinkFault, 13, "sutcheck: cannot print\n"),
        (
            CheckStatus::TooLong(FileName::CertificateCsv),
            14,
            "sutcheck: too long certificate.csv\n",
        ),
    ];
    check(&rt, rt.alloc(), &cases)
}

const BUYING: Column = Column::Industry(IndustryId(2));

const MAKE: Measure = Measure::Cell(Cell::Make(ProductId(0), IndustryId(0)));

const MARGIN: Measure = Measure::Cell(Cell::Margin(MarginId(1), ProductId(3), BUYING));

const PURCHASE: Measure = Measure::Total(Total::Purchase(ProductId(0), Column::Final(FinalId(0))));

fn open(place: Place) -> Reason {
    Reason::Open(Broken {
        place,
        left: -3,
        right: 5,
    })
}

#[test]
fn reasons(rt: HostRuntime) -> Result<(), Fail> {
    let cases = [
        (
            open(Place::Product(ProductId(0))),
            "sutcheck: refused: open product 1 -3 5\n",
        ),
        (
            open(Place::Industry(IndustryId(1))),
            "sutcheck: refused: open industry 2 -3 5\n",
        ),
        (
            open(Place::Margin(MarginId(2))),
            "sutcheck: refused: open margin 3 -3 5\n",
        ),
        (
            open(Place::Below(MAKE)),
            "sutcheck: refused: open below make 1 1 -3 5\n",
        ),
        (
            open(Place::Above(MARGIN)),
            "sutcheck: refused: open above margin 2 4 industry 3 -3 5\n",
        ),
        (
            Reason::NoPotential(Account::Bought(ProductId(1), BUYING)),
            "sutcheck: refused: no-potential bought 2 industry 3\n",
        ),
        (
            Reason::Bent {
                measure: PURCHASE,
                rise: -7,
            },
            "sutcheck: refused: bent purchase 1 final 1 -7\n",
        ),
        (
            Reason::Up {
                measure: MAKE,
                slope: 5,
                rise: 104,
            },
            "sutcheck: refused: up make 1 1 5 104\n",
        ),
        (
            Reason::Down {
                measure: MAKE,
                slope: 3,
                rise: 2,
            },
            "sutcheck: refused: down make 1 1 3 2\n",
        ),
        (
            Reason::Crosses(Measure::Total(Total::Gdp)),
            "sutcheck: refused: crosses gdp\n",
        ),
        (
            Reason::NoGap {
                entering: 90,
                leaving: 95,
            },
            "sutcheck: refused: no-gap 90 95\n",
        ),
    ];
    for (reason, text) in cases {
        check(&rt, rt.alloc(), &[(CheckStatus::Refused(reason), 4, text)])?;
    }
    Ok(())
}

#[test]
fn faults_of_certificates(rt: HostRuntime) -> Result<(), Fail> {
    let cases = [
        (CertCause::Csv, "sutcheck: certificate.csv line 9: csv\n"),
        (
            CertCause::Header,
            "sutcheck: certificate.csv line 9: header\n",
        ),
        (
            CertCause::BadName(NameFault::UnknownKind),
            "sutcheck: certificate.csv line 9: bad-name unknown-kind\n",
        ),
        (
            CertCause::BadName(NameFault::UnknownCode(Field::A)),
            "sutcheck: certificate.csv line 9: bad-name unknown-code a\n",
        ),
        (
            CertCause::BadName(NameFault::NotEmpty(Field::B)),
            "sutcheck: certificate.csv line 9: bad-name not-empty b\n",
        ),
        (
            CertCause::WrongAccount,
            "sutcheck: certificate.csv line 9: wrong-account\n",
        ),
        (
            CertCause::NotNumber,
            "sutcheck: certificate.csv line 9: not-number\n",
        ),
        (
            CertCause::OutOfRange,
            "sutcheck: certificate.csv line 9: out-of-range\n",
        ),
        (
            CertCause::Short,
            "sutcheck: certificate.csv line 9: short\n",
        ),
    ];
    for (cause, text) in cases {
        let fault = CertFault { line: 9, cause };
        check(
            &rt,
            rt.alloc(),
            &[(CheckStatus::BadCertificate(fault), 8, text)],
        )?;
    }
    Ok(())
}

#[test]
fn faults_of_tables(rt: HostRuntime) -> Result<(), Fail> {
    let wrong = BalancedCause::WrongTotal {
        printed: 103,
        sum: -102,
    };
    let cases = [
        (BalancedCause::Csv, "sutcheck: balanced.csv line 6: csv\n"),
        (
            BalancedCause::Header,
            "sutcheck: balanced.csv line 6: header\n",
        ),
        (
            BalancedCause::WrongMeasure,
            "sutcheck: balanced.csv line 6: wrong-measure\n",
        ),
        (
            BalancedCause::WrongTarget,
            "sutcheck: balanced.csv line 6: wrong-target\n",
        ),
        (
            BalancedCause::NotNumber,
            "sutcheck: balanced.csv line 6: not-number\n",
        ),
        (
            BalancedCause::OutOfRange,
            "sutcheck: balanced.csv line 6: out-of-range\n",
        ),
        (
            wrong,
            "sutcheck: balanced.csv line 6: wrong-total 103 -102\n",
        ),
        (
            BalancedCause::Short,
            "sutcheck: balanced.csv line 6: short\n",
        ),
    ];
    for (cause, text) in cases {
        let fault = BalancedFault { line: 6, cause };
        check(&rt, rt.alloc(), &[(CheckStatus::BadTable(fault), 9, text)])?;
    }
    Ok(())
}
