//! Worked tables of small years.

use crate::years::{Case, FLAT, Outcome, SMALL, case_holds, one};
use std::alloc::Global;
use std::process::Abort;
use sut_classes::{
    Column, FinalId, IndustryId, ItemId, MarginId, ProductGroupId, ProductId, TaxId,
};
use sut_gdp::Gdp;
use sut_measures::{Cell, Measure, Total};
use sut_tables::{Broken, Place};

/// A product G, and a product T that makes the services of the margin TR.
const TRADE: &str =
    "axis,code,kind\nmargin,TR,\nproduct,G,plain\nproduct,T,TR\nindustry,A,\nindustry,B,\nfinal,F,\nitem,V,\n";

/// Two final uses.
const FINALS: &str = "axis,code,kind\nproduct,X,plain\nindustry,A,\nfinal,F,\nfinal,E,\nitem,V,\n";

/// A tax and a subsidy.
const TAXES: &str =
    "axis,code,kind\nproduct,X,plain\nindustry,A,\nfinal,F,\nitem,V,\ntax,VAT,\ntax,SUB,\n";

/// Two products in one group.
const GROUPS: &str =
    "axis,code,kind,group\nproduct_group,G,,\nproduct,X,plain,G\nproduct,Y,plain,G\nindustry,A,,\nfinal,F,,\nitem,V,,\n";

const FIRST: Column = Column::Final(FinalId(0));

const MAKE: Measure = Measure::Cell(Cell::Make(ProductId(0), IndustryId(0)));

const SUPPLY: Measure = Measure::Total(Total::Supply(ProductId(0)));

const BASIC: Measure = Measure::Cell(Cell::Basic(ProductId(0), FIRST));

fn open(place: Place, left: i128, right: i128) -> Outcome {
    Outcome::Open(Broken { place, left, right })
}

fn check(rt: &impl Abort, alloc: Global, cases: &[Case]) {
    for case in cases {
        let holds = case_holds(alloc, case);
        assert!(rt; holds);
    }
}

#[test]
fn admissible_tables(rt: HostRuntime) {
    let cases = [
        Case {
            settings: FLAT,
            classes: SMALL,
            source: "kind,a,b,c,target,grade,lower,upper\nmake,X,A,,100,,,\nbasic,X,F,,104,,,\nadded,V,A,,,,0,1000\n",
            numbers: "make,X,A,,102\nbasic,X,F,,102\nadded,V,A,,102\n",
            outcome: Outcome::Costs(8),
            gdp: one(102),
            totals: &[(Total::Purchase(ProductId(0), FIRST), 102)],
        },
        Case {
            settings: "scheme = \"relative\"\n[grades]\nH = 100\n",
            classes: SMALL,
            source: "kind,a,b,c,target,grade,lower,upper\nmake,X,A,,0,H,,\nbasic,X,F,,3,H,,\nadded,V,A,,,,0,1000\n",
            numbers: "make,X,A,,1\nbasic,X,F,,1\nadded,V,A,,1\n",
            outcome: Outcome::Costs(23332),
            gdp: one(1),
            totals: &[(Total::ValueAdded(IndustryId(0)), 1)],
        },
        Case {
            settings: FLAT,
            classes: SMALL,
            source: "kind,a,b,c,target,grade,lower,upper\nmake,X,A,,-1000000000000,,1000000000000,1000000000000\nbasic,X,F,,0,,,\nadded,V,A,,,,0,1000000000000\n",
            numbers: "make,X,A,,1000000000000\nbasic,X,F,,1000000000000\nadded,V,A,,1000000000000\n",
            outcome: Outcome::Costs(5_000_000_000_000_000_000_000_000),
            gdp: one(1_000_000_000_000),
            totals: &[(Total::Output(IndustryId(0)), 1_000_000_000_000)],
        },
        Case {
            settings: FLAT,
            classes: FINALS,
            source: "kind,a,b,c,target,grade,lower,upper\nmake,X,A,,80,,,\nimport,X,,,30,,,\nbasic,X,F,,70,,,\nbasic,X,E,,48,,,\nadded,V,A,,,,0,1000\n",
            numbers: "make,X,A,,82\nimport,X,,,32\nbasic,X,F,,68\nbasic,X,E,,46\nadded,V,A,,82\n",
            outcome: Outcome::Costs(16),
            gdp: one(82),
            totals: &[
                (Total::Supply(ProductId(0)), 114),
                (Total::FinalTotal(FinalId(0)), 68),
                (Total::FinalTotal(FinalId(1)), 46),
                (Total::ImportTotal, 32),
                (Total::Gdp, 82),
            ],
        },
    ];
    check(&rt, rt.alloc(), &cases);
}

#[test]
fn margins_taxes_and_groups(rt: HostRuntime) {
    let cases = [
        Case {
            settings: FLAT,
            classes: TRADE,
            source: "kind,a,b,c,target,grade,lower,upper\nmake,G,A,,100,,,\nbasic,G,F,,100,,,\nmake,T,B,,22,,,\nservice,T,TR,,22,,,\nmargin,TR,G,F,22,,,\nadded,V,A,,100,,,\nadded,V,B,,22,,,\n",
            numbers: "make,G,A,,100\nbasic,G,F,,100\nmake,T,B,,22\nservice,T,TR,,22\nmargin,TR,G,F,22\nadded,V,A,,100\nadded,V,B,,22\n",
            outcome: Outcome::Costs(0),
            gdp: one(122),
            totals: &[
                (Total::Purchase(ProductId(0), FIRST), 122),
                (Total::MarginTotal(MarginId(0)), 22),
                (Total::MarginProduct(MarginId(0), ProductId(0)), 22),
                (Total::MarginProduct(MarginId(0), ProductId(1)), 0),
                (Total::ItemTotal(ItemId(0)), 122),
            ],
        },
        Case {
            settings: FLAT,
            classes: TAXES,
            source: "kind,a,b,c,target,grade,lower,upper\nmake,X,A,,100,,,\nbasic,X,F,,100,,,\ntax,VAT,X,F,17,,,\ntax,SUB,X,F,-5,,,\nadded,V,A,,100,,,\n",
            numbers: "make,X,A,,100\nbasic,X,F,,100\ntax,VAT,X,F,17\ntax,SUB,X,F,-5\nadded,V,A,,100\n",
            outcome: Outcome::Costs(0),
            gdp: one(112),
            totals: &[
                (Total::Purchase(ProductId(0), FIRST), 112),
                (Total::TaxTotal(TaxId(0)), 17),
                (Total::TaxProduct(TaxId(1), ProductId(0)), -5),
            ],
        },
        Case {
            settings: FLAT,
            classes: GROUPS,
            source: "kind,a,b,c,target,grade,lower,upper\nmake,X,A,,100,,,\nmake,Y,A,,100,,,\nbasic,X,F,,100,,,\nbasic,Y,F,,100,,,\nmake_group,G,A,,208,,,\nadded,V,A,,,,0,1000\n",
            numbers: "make,X,A,,102\nmake,Y,A,,102\nbasic,X,F,,102\nbasic,Y,F,,102\nadded,V,A,,204\n",
            outcome: Outcome::Costs(32),
            gdp: one(204),
            totals: &[
                (Total::MakeGroup(ProductGroupId(0), IndustryId(0)), 204),
                (Total::PurchaseGroup(ProductGroupId(0), FIRST), 204),
            ],
        },
    ];
    check(&rt, rt.alloc(), &cases);
}

#[test]
fn broken_identities(rt: HostRuntime) {
    let cases = [
        Case {
            settings: FLAT,
            classes: SMALL,
            source: "kind,a,b,c,target,grade,lower,upper\nmake,X,A,,100,,,\nbasic,X,F,,104,,,\nadded,V,A,,100,,,\n",
            numbers: "make,X,A,,100\nbasic,X,F,,104\nadded,V,A,,100\n",
            outcome: open(Place::Product(ProductId(0)), 100, 104),
            gdp: Gdp {
                production: 100,
                income: 100,
                expenditure: 104,
            },
            totals: &[],
        },
        Case {
            settings: FLAT,
            classes: SMALL,
            source: "kind,a,b,c,target,grade,lower,upper\nmake,X,A,,100,,,\nbasic,X,A,,40,,,\nbasic,X,F,,60,,,\nadded,V,A,,60,,,\n",
            numbers: "make,X,A,,100\nbasic,X,A,,40\nbasic,X,F,,60\nadded,V,A,,55\n",
            outcome: open(Place::Industry(IndustryId(0)), 100, 95),
            gdp: Gdp {
                production: 60,
                income: 55,
                expenditure: 60,
            },
            totals: &[(Total::Inputs(IndustryId(0)), 40)],
        },
        Case {
            settings: FLAT,
            classes: TRADE,
            source: "kind,a,b,c,target,grade,lower,upper\nmake,G,A,,100,,,\nbasic,G,F,,100,,,\nmake,T,B,,22,,,\nmargin,TR,G,F,22,,,\nadded,V,A,,100,,,\nadded,V,B,,22,,,\n",
            numbers: "make,G,A,,100\nbasic,G,F,,100\nmake,T,B,,22\nmargin,TR,G,F,22\nadded,V,A,,100\nadded,V,B,,22\n",
            outcome: open(Place::Product(ProductId(1)), 22, 0),
            gdp: one(122),
            totals: &[],
        },
        Case {
            settings: FLAT,
            classes: TRADE,
            source: "kind,a,b,c,target,grade,lower,upper\nmake,G,A,,100,,,\nbasic,G,F,,100,,,\nmake,T,B,,22,,,\nservice,T,TR,,22,,,\nmargin,TR,G,F,20,,,\nadded,V,A,,100,,,\nadded,V,B,,22,,,\n",
            numbers: "make,G,A,,100\nbasic,G,F,,100\nmake,T,B,,22\nservice,T,TR,,22\nmargin,TR,G,F,20\nadded,V,A,,100\nadded,V,B,,22\n",
            outcome: open(Place::Margin(MarginId(0)), 22, 20),
            gdp: Gdp {
                production: 122,
                income: 122,
                expenditure: 120,
            },
            totals: &[],
        },
    ];
    check(&rt, rt.alloc(), &cases);
}

#[test]
fn broken_bounds(rt: HostRuntime) {
    let cases = [
        Case {
            settings: FLAT,
            classes: SMALL,
            source: "kind,a,b,c,target,grade,lower,upper\nsupply,X,,,,,5,5\n",
            numbers: "",
            outcome: open(Place::Below(SUPPLY), 0, 5),
            gdp: one(0),
            totals: &[],
        },
        Case {
            settings: FLAT,
            classes: SMALL,
            source: "kind,a,b,c,target,grade,lower,upper\nmake,X,A,,100,,0,90\nbasic,X,F,,100,,,\nadded,V,A,,100,,,\n",
            numbers: "make,X,A,,100\nbasic,X,F,,100\nadded,V,A,,100\n",
            outcome: open(Place::Above(MAKE), 100, 90),
            gdp: one(100),
            totals: &[],
        },
        Case {
            settings: FLAT,
            classes: SMALL,
            source: "kind,a,b,c,target,grade,lower,upper\nmake,X,A,,100,,,\nbasic,X,F,,100,,101,\nadded,V,A,,100,,0,99\n",
            numbers: "make,X,A,,100\nbasic,X,F,,100\nadded,V,A,,100\n",
            outcome: open(Place::Below(BASIC), 100, 101),
            gdp: one(100),
            totals: &[],
        },
    ];
    check(&rt, rt.alloc(), &cases);
}
