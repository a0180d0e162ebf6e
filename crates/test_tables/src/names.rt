//! Names as they are printed: of each kind of measure, and of each kind of account.

use std::alloc::Global;
use std::process::Abort;
use sut_classes::{
    Classes, Column, FinalId, IndustryGroupId, IndustryId, ItemId, MarginId, ProductGroupId,
    ProductId, TaxId, read_classes,
};
use sut_measures::{Account, Cell, Measure, Total, put_account, put_name};

const CLASSES: &str =
    "axis,code,kind,group\nmargin,TR,,\nproduct_group,G,,\nindustry_group,H,,\nproduct,X,plain,G\nproduct,T,TR,\nindustry,A,,H\nfinal,F,,\nitem,V,,\ntax,VAT,,\n";

const X: ProductId = ProductId(0);

const A: IndustryId = IndustryId(0);

const V: ItemId = ItemId(0);

const TR: MarginId = MarginId(0);

const VAT: TaxId = TaxId(0);

const G: ProductGroupId = ProductGroupId(0);

const IN_A: Column = Column::Industry(IndustryId(0));

const IN_F: Column = Column::Final(FinalId(0));

fn measure_reads(alloc: Global, classes: &Classes, measure: Measure, want: &str) -> bool {
    let mut out = Vec::new(alloc);
    match put_name(&mut out, classes, measure) {
        Ok(()) => out.as_slice() == want.as_bytes(),
        Err(_) => false,
    }
}

fn account_reads(alloc: Global, classes: &Classes, account: Account, want: &str) -> bool {
    let mut out = Vec::new(alloc);
    match put_account(&mut out, classes, account) {
        Ok(()) => out.as_slice() == want.as_bytes(),
        Err(_) => false,
    }
}

fn measures_read(alloc: Global, classes: &Classes, cases: &[(Measure, &'static str)]) -> bool {
    for (measure, want) in cases {
        if !measure_reads(alloc, classes, *measure, want) {
            return false;
        }
    }
    true
}

fn accounts_read(alloc: Global, classes: &Classes, cases: &[(Account, &'static str)]) -> bool {
    for (account, want) in cases {
        if !account_reads(alloc, classes, *account, want) {
            return false;
        }
    }
    true
}

fn check_measures(rt: &impl Abort, alloc: Global, cases: &[(Measure, &'static str)]) {
    let holds = match read_classes(alloc, CLASSES.as_bytes()) {
        Ok(classes) => measures_read(alloc, &classes, cases),
        Err(_) => false,
    };
    assert!(rt; holds);
}

fn check_accounts(rt: &impl Abort, alloc: Global, cases: &[(Account, &'static str)]) {
    let holds = match read_classes(alloc, CLASSES.as_bytes()) {
        Ok(classes) => accounts_read(alloc, &classes, cases),
        Err(_) => false,
    };
    assert!(rt; holds);
}

#[test]
fn cells(rt: HostRuntime) {
    let cases = [
        (Measure::Cell(Cell::Make(X, A)), "make,X,A,"),
        (Measure::Cell(Cell::Import(X)), "import,X,,"),
        (Measure::Cell(Cell::Basic(X, IN_A)), "basic,X,A,"),
        (Measure::Cell(Cell::Basic(X, IN_F)), "basic,X,F,"),
        (Measure::Cell(Cell::Margin(TR, X, IN_F)), "margin,TR,X,F"),
        (Measure::Cell(Cell::Tax(VAT, X, IN_A)), "tax,VAT,X,A"),
        (
            Measure::Cell(Cell::Service(ProductId(1), TR)),
            "service,T,TR,",
        ),
        (Measure::Cell(Cell::Added(V, A)), "added,V,A,"),
    ];
    check_measures(&rt, rt.alloc(), &cases);
}

#[test]
fn totals(rt: HostRuntime) {
    let cases = [
        (Measure::Total(Total::Purchase(X, IN_F)), "purchase,X,F,"),
        (Measure::Total(Total::Supply(X)), "supply,X,,"),
        (Measure::Total(Total::Output(A)), "output,A,,"),
        (Measure::Total(Total::Inputs(A)), "inputs,A,,"),
        (Measure::Total(Total::ValueAdded(A)), "value_added,A,,"),
        (Measure::Total(Total::ItemTotal(V)), "item_total,V,,"),
        (
            Measure::Total(Total::FinalTotal(FinalId(0))),
            "final_total,F,,",
        ),
        (Measure::Total(Total::ImportTotal), "import_total,,,"),
        (Measure::Total(Total::MarginTotal(TR)), "margin_total,TR,,"),
        (
            Measure::Total(Total::MarginProduct(TR, X)),
            "margin_product,TR,X,",
        ),
        (Measure::Total(Total::TaxTotal(VAT)), "tax_total,VAT,,"),
        (
            Measure::Total(Total::TaxProduct(VAT, X)),
            "tax_product,VAT,X,",
        ),
        (Measure::Total(Total::Gdp), "gdp,,,"),
    ];
    check_measures(&rt, rt.alloc(), &cases);
}

#[test]
fn group_totals(rt: HostRuntime) {
    let cases = [
        (Measure::Total(Total::MakeGroup(G, A)), "make_group,G,A,"),
        (Measure::Total(Total::ImportGroup(G)), "import_group,G,,"),
        (
            Measure::Total(Total::PurchaseGroup(G, IN_F)),
            "purchase_group,G,F,",
        ),
        (
            Measure::Total(Total::MarginGroup(TR, G)),
            "margin_group,TR,G,",
        ),
        (Measure::Total(Total::TaxGroup(VAT, G)), "tax_group,VAT,G,"),
        (
            Measure::Total(Total::ItemGroup(V, IndustryGroupId(0))),
            "item_group,V,H,",
        ),
    ];
    check_measures(&rt, rt.alloc(), &cases);
}

#[test]
fn accounts(rt: HostRuntime) {
    let cases = [
        (Account::Supplied(X), "supplied,X,"),
        (Account::Used(X), "used,X,"),
        (Account::Bought(X, IN_F), "bought,X,F"),
        (Account::Buying(A), "buying,A,"),
        (Account::Adding(A), "adding,A,"),
        (Account::Industry(A), "industry,A,"),
        (Account::Making(A), "making,A,"),
        (Account::Final(FinalId(0)), "final,F,"),
        (Account::Item(V), "item,V,"),
        (Account::Imports, "imports,,"),
        (Account::Services(TR), "services,TR,"),
        (Account::Margins(TR), "margins,TR,"),
        (Account::MarginOf(TR, X), "margin_of,TR,X"),
        (Account::Taxes(VAT), "taxes,VAT,"),
        (Account::TaxOf(VAT, X), "tax_of,VAT,X"),
        (Account::Spending, "spending,,"),
        (Account::Income, "income,,"),
    ];
    check_accounts(&rt, rt.alloc(), &cases);
}

#[test]
fn group_accounts(rt: HostRuntime) {
    let cases = [
        (Account::MakingIn(G, A), "making_in,G,A"),
        (Account::Importing(G), "importing,G,"),
        (Account::BuyingIn(G, IN_A), "buying_in,G,A"),
        (Account::MarginIn(TR, G), "margin_in,TR,G"),
        (Account::TaxIn(VAT, G), "tax_in,VAT,G"),
        (Account::ItemIn(V, IndustryGroupId(0)), "item_in,V,H"),
    ];
    check_accounts(&rt, rt.alloc(), &cases);
}
