//! The account that each measure leaves, and the one that it enters.

ghost use Rattle.std.specs.Prelude.{◌≡◌};
ghost use Rattle.sut_classes.specs.Groups.{groups_of};
ghost use Rattle.sut_measures.specs.Ends as account_ends;

use crate::{Account, Cell, Measure, Total};
use sut_classes::{Classes, Column};

/// The account of a column's purchases.
fn buyer(column: Column) -> Account
    ensures { result ≡ account_ends.buyer column }
{
    match column {
        Column::Industry(j) => Account::Buying(j),
        Column::Final(f) => Account::Final(f),
    }
}

fn cell_left(classes: &Classes, c: Cell) -> Account
    ensures { result ≡ account_ends.cell_left (groups_of classes.now) c }
{
    match c {
        Cell::Make(i, j) => match classes.group_of(i) {
            Some(g) => Account::MakingIn(g, j),
            None => Account::Making(j),
        },
        Cell::Import(i) => match classes.group_of(i) {
            Some(g) => Account::Importing(g),
            None => Account::Imports,
        },
        Cell::Basic(i, _) => Account::Used(i),
        Cell::Margin(k, i, _) => Account::MarginOf(k, i),
        Cell::Tax(t, i, _) => Account::TaxOf(t, i),
        Cell::Service(i, _) => Account::Used(i),
        Cell::Added(v, j) => match classes.group_of_industry(j) {
            Some(h) => Account::ItemIn(v, h),
            None => Account::Item(v),
        },
    }
}

fn cell_entered(classes: &Classes, c: Cell) -> Account
    ensures { result ≡ account_ends.cell_entered (groups_of classes.now) c }
{
    match c {
        Cell::Make(i, _) | Cell::Import(i) => Account::Supplied(i),
        Cell::Basic(i, q) | Cell::Margin(_, i, q) | Cell::Tax(_, i, q) => Account::Bought(i, q),
        Cell::Service(_, k) => Account::Services(k),
        Cell::Added(_, j) => Account::Adding(j),
    }
}

fn total_left(classes: &Classes, t: Total) -> Account
    ensures { result ≡ account_ends.total_left (groups_of classes.now) t }
{
    match t {
        Total::Purchase(i, q) => Account::Bought(i, q),
        Total::Supply(i) => Account::Supplied(i),
        Total::Output(j) => Account::Industry(j),
        Total::Inputs(j) => Account::Buying(j),
        Total::ValueAdded(j) => Account::Adding(j),
        Total::ItemTotal(_) | Total::TaxTotal(_) => Account::Income,
        Total::FinalTotal(f) => Account::Final(f),
        Total::ImportTotal | Total::Gdp => Account::Spending,
        Total::MarginTotal(k) => Account::Services(k),
        Total::MarginProduct(k, i) => match classes.group_of(i) {
            Some(g) => Account::MarginIn(k, g),
            None => Account::Margins(k),
        },
        Total::TaxProduct(t, i) => match classes.group_of(i) {
            Some(g) => Account::TaxIn(t, g),
            None => Account::Taxes(t),
        },
        Total::MakeGroup(_, j) => Account::Making(j),
        Total::ImportGroup(_) => Account::Imports,
        Total::PurchaseGroup(g, q) => Account::BuyingIn(g, q),
        Total::MarginGroup(k, _) => Account::Margins(k),
        Total::TaxGroup(t, _) => Account::Taxes(t),
        Total::ItemGroup(v, _) => Account::Item(v),
    }
}

fn total_entered(classes: &Classes, t: Total) -> Account
    ensures { result ≡ account_ends.total_entered (groups_of classes.now) t }
{
    match t {
        Total::Purchase(i, q) => match classes.group_of(i) {
            Some(g) => Account::BuyingIn(g, q),
            None => buyer(q),
        },
        Total::Supply(i) => Account::Used(i),
        Total::Output(j) => Account::Making(j),
        Total::Inputs(j) | Total::ValueAdded(j) => Account::Industry(j),
        Total::ItemTotal(v) => Account::Item(v),
        Total::FinalTotal(_) => Account::Spending,
        Total::ImportTotal => Account::Imports,
        Total::MarginTotal(k) => Account::Margins(k),
        Total::MarginProduct(k, i) => Account::MarginOf(k, i),
        Total::TaxTotal(t) => Account::Taxes(t),
        Total::TaxProduct(t, i) => Account::TaxOf(t, i),
        Total::Gdp => Account::Income,
        Total::MakeGroup(g, j) => Account::MakingIn(g, j),
        Total::ImportGroup(g) => Account::Importing(g),
        Total::PurchaseGroup(_, q) => buyer(q),
        Total::MarginGroup(k, g) => Account::MarginIn(k, g),
        Total::TaxGroup(t, g) => Account::TaxIn(t, g),
        Total::ItemGroup(v, h) => Account::ItemIn(v, h),
    }
}

/// The account that the measure leaves, and the one that it enters.
pub fn ends(classes: &Classes, m: Measure) -> (Account, Account)
    ensures from { result.0 ≡ account_ends.left (groups_of classes.now) m }
    ensures to { result.1 ≡ account_ends.entered (groups_of classes.now) m }
{
    match m {
        Measure::Cell(c) => (cell_left(classes, c), cell_entered(classes, c)),
        Measure::Total(t) => (total_left(classes, t), total_entered(classes, t)),
    }
}
