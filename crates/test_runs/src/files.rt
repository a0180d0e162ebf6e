//! The files that a run writes.

use crate::years::{FLAT, GAP, SMALL, Year, ends, steady};
use std::alloc::Global;
use std::test::Fail;
use sut_outside::{FileName, MemorySink, SteadyShelf};
use test_years::first_other;

type Written = (FileName, Option<&'static str>);

// The shelf after the run of a year of one product, on which an older table stood.
fn after(alloc: Global, rows: &str) -> Result<SteadyShelf, Fail> {
    let year = Year {
        settings: FLAT,
        classes: SMALL,
        rows,
    };
    let mut shelf = steady(alloc, &year)?;
    shelf.place(FileName::UseCsv, b"old")?;
    let mut out = MemorySink::new(alloc, 1000, Vec::new(alloc))?;
    let _status = ends(alloc, &["balance"], &mut shelf, &mut out)?;
    Ok(shelf)
}

const BALANCED: &str = "kind,a,b,c,target,value
make,X,A,,100,102
basic,X,F,,104,102
added,V,A,,,102
purchase,X,F,,,102
supply,X,,,,102
output,A,,,,102
value_added,A,,,,102
item_total,V,,,,102
final_total,F,,,,102
gdp,,,,,102
";

const SUPPLY: &str = "product,make:A,import,supply,purchasers
X,102,0,102,102
:total,102,0,102,102
";

const USES: &str = "product,layer,industry:A,final:F,total
X,basic,0,102,102
X,purchasers,0,102,102
:total,purchasers,0,102,102
:total,added:V,102,,102
:total,value_added,102,,102
:total,output,102,,102
";

const ACCOUNTS: &str = "account,entry,value
production,output,102
production,intermediate,0
production,taxes,0
production,gdp,102
income,item:V,102
income,taxes,0
income,gdp,102
expenditure,final:F,102
expenditure,imports,0
expenditure,gdp,102
industry:A,output,102
industry:A,inputs,0
industry:A,value_added,102
product:X,supply,102
product:X,used,102
";

const REPORT: &str =
    "{\"answer\":\"balanced\",\"cost\":\"8\",\"gdp\":{\"expenditure\":102,\"income\":102,\"production\":102},\"rows\":3}
";

#[test]
fn texts_of_a_balanced_answer(rt: HostRuntime) -> Result<(), Fail> {
    let shelf = after(rt.alloc(), GAP)?;
    let files = [
        (FileName::BalancedCsv, Some(BALANCED)),
        (FileName::SupplyCsv, Some(SUPPLY)),
        (FileName::UseCsv, Some(USES)),
        (FileName::AccountsCsv, Some(ACCOUNTS)),
        (FileName::ReportJson, Some(REPORT)),
        (FileName::ReviewCsv, None),
    ];
    let other = first_other(&shelf, &files);
    assert!(rt; other == None, "{other:?}");
    Ok(())
}

/// The accounts of that certificate, in order. All but the first two have one potential; the first two have one that is
/// higher by 3, 4 or 5, since the make may rise at a slope of 5 and fall at one of 3, and the basic at -3 and -5.
const ACCOUNTS_SHOWN: [&'static str; 10] = [
    "supplied,X,,",
    "used,X,,",
    "bought,X,F,",
    "adding,A,,",
    "industry,A,,",
    "making,A,,",
    "final,F,,",
    "item,V,,",
    "spending,,,",
    "income,,,",
];

// The potentials of a certificate that names these accounts; none where it names others.
fn potentials_at(alloc: Global, text: &[u8], accounts: &[&str]) -> Result<Option<Vec<i128>>, Fail> {
    let mut lines = str::from_utf8(text)?.lines();
    if lines.next() != Some("account,a,b,potential") {
        return Ok(None);
    }
    let mut potentials = Vec::new(alloc);
    for account in accounts {
        let Some(line) = lines.next() else {
            return Ok(None);
        };
        let Some(number) = line.strip_prefix(*account) else {
            return Ok(None);
        };
        potentials.push(number.parse::<i128>()?)?;
    }
    Ok(lines.next().is_none().then_some(potentials))
}

#[test]
fn certificate_of_a_balanced_answer(rt: HostRuntime) -> Result<(), Fail> {
    let shelf = after(rt.alloc(), GAP)?;
    let text = shelf
        .file(FileName::CertificateCsv)
        .ok_or("no certificate")?;
    let potentials = potentials_at(rt.alloc(), text, &ACCOUNTS_SHOWN)?.ok_or("other accounts")?;
    let [supplied, used, others @ ..] = potentials.as_slice() else {
        return Err("no potentials".into());
    };
    assert!(rt; supplied == used);
    for other in others {
        let rise = supplied.checked_sub(*other).ok_or("far apart")?;
        assert!(rt; (3..=5).contains(&rise) && Some(other) == others.first());
    }
    Ok(())
}

#[test]
fn empty_source(rt: HostRuntime) -> Result<(), Fail> {
    let shelf = after(rt.alloc(), "")?;
    let files: [Written; 2] = [
        (FileName::BalancedCsv, Some("kind,a,b,c,target,value\n")),
        (FileName::CertificateCsv, Some("account,a,b,potential\n")),
    ];
    let other = first_other(&shelf, &files);
    assert!(rt; other == None, "{other:?}");
    Ok(())
}

const CUT: &str = "account,a,b
bought,X,F
adding,A,
industry,A,
making,A,
final,F,
item,V,
spending,,
income,,
";

const CUT_REPORT: &str = "{\"answer\":\"infeasible\",\"entering\":95,\"leaving\":90,\"rows\":3}\n";

// No table is written, and older ones stay.
#[test]
fn texts_of_infeasible_answers(rt: HostRuntime) -> Result<(), Fail> {
    let narrow = after(
        rt.alloc(),
        "make,X,A,,100,,0,90\nbasic,X,F,,100,,95,\nadded,V,A,,,,0,1000\n",
    )?;
    let files: [Written; 6] = [
        (FileName::BalancedCsv, None),
        (FileName::SupplyCsv, None),
        (FileName::UseCsv, Some("old")),
        (FileName::AccountsCsv, None),
        (FileName::CertificateCsv, Some(CUT)),
        (FileName::ReportJson, Some(CUT_REPORT)),
    ];
    let other = first_other(&narrow, &files);
    assert!(rt; other == None, "{other:?}");
    let alone = after(rt.alloc(), "supply,X,,,5,,5,5\n")?;
    let files: [Written; 1] = [(FileName::CertificateCsv, Some("account,a,b\nused,X,\n"))];
    let other = first_other(&alone, &files);
    assert!(rt; other == None, "{other:?}");
    Ok(())
}
