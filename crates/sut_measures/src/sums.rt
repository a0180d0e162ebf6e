//! The totals in whose sum a cell stands, and its factor there.

ghost use Rattle.std.specs.Prelude.{◌≡◌, ◌++◌, IsTrue, None, slice_get};
ghost use Rattle.sut_classes.specs.Groups.{groups_of};
ghost use Rattle.sut_measures.specs.Fits as classes_have;
ghost use Rattle.sut_measures.specs.Sums as sum_rule;

use crate::{Cell, Total};
use sut_classes::{
    Classes, Column, IndustryGroupId, IndustryId, MarginId, ProductGroupId, ProductId, TaxId,
};

fn same_column(a: Column, b: Column) -> bool
    ensures { result ≡ sum_rule.same_column a b }
{
    match a {
        Column::Industry(j) => match b {
            Column::Industry(k) => j.0 == k.0,
            Column::Final(_) => false,
        },
        Column::Final(f) => match b {
            Column::Industry(_) => false,
            Column::Final(g) => f.0 == g.0,
        },
    }
}

/// Whether the product is in this group.
fn is_in(classes: &Classes, product: ProductId, group: ProductGroupId) -> bool
    ensures { result ≡ sum_rule.is_in (groups_of classes.now) product group }
{
    match classes.group_of(product) {
        Some(of_product) => of_product.0 == group.0,
        None => false,
    }
}

/// Whether the industry is in this group.
fn is_industry_in(classes: &Classes, industry: IndustryId, group: IndustryGroupId) -> bool
    ensures { result ≡ sum_rule.is_industry_in (groups_of classes.now) industry group }
{
    match classes.group_of_industry(industry) {
        Some(of_industry) => of_industry.0 == group.0,
        None => false,
    }
}

/// Whether the parts of a purchase stand in the total's sum.
fn is_bought_in(classes: &Classes, product: ProductId, column: Column, t: Total) -> bool
    ensures { result ≡ sum_rule.stands_in (groups_of classes.now) (Cell.Basic product column) t }
{
    match t {
        Total::Purchase(i, q) => product.0 == i.0 && same_column(column, q),
        Total::Inputs(j) => same_column(column, Column::Industry(j)),
        Total::FinalTotal(f) => same_column(column, Column::Final(f)),
        Total::Gdp => match column {
            Column::Industry(_) => false,
            Column::Final(_) => true,
        },
        Total::PurchaseGroup(g, q) => is_in(classes, product, g) && same_column(column, q),
        _ => false,
    }
}

/// Whether the cell stands in the total's sum.
fn stands_in(classes: &Classes, c: Cell, t: Total) -> bool
    ensures { result ≡ sum_rule.stands_in (groups_of classes.now) c t }
{
    match c {
        Cell::Make(i, j) => match t {
            Total::Supply(n) => i.0 == n.0,
            Total::Output(m) => j.0 == m.0,
            Total::MakeGroup(g, m) => is_in(classes, i, g) && j.0 == m.0,
            _ => false,
        },
        Cell::Import(i) => match t {
            Total::Supply(n) => i.0 == n.0,
            Total::ImportTotal | Total::Gdp => true,
            Total::ImportGroup(g) => is_in(classes, i, g),
            _ => false,
        },
        Cell::Basic(i, q) => is_bought_in(classes, i, q, t),
        Cell::Margin(k, i, q) => match t {
            Total::MarginTotal(l) => k.0 == l.0,
            Total::MarginProduct(l, n) => k.0 == l.0 && i.0 == n.0,
            Total::MarginGroup(l, g) => k.0 == l.0 && is_in(classes, i, g),
            _ => is_bought_in(classes, i, q, t),
        },
        Cell::Tax(k, i, q) => match t {
            Total::TaxTotal(l) => k.0 == l.0,
            Total::TaxProduct(l, n) => k.0 == l.0 && i.0 == n.0,
            Total::TaxGroup(l, g) => k.0 == l.0 && is_in(classes, i, g),
            _ => is_bought_in(classes, i, q, t),
        },
        Cell::Service(_, _) => false,
        Cell::Added(v, j) => match t {
            Total::ValueAdded(m) => j.0 == m.0,
            Total::ItemTotal(w) => v.0 == w.0,
            Total::ItemGroup(w, h) => v.0 == w.0 && is_industry_in(classes, j, h),
            _ => false,
        },
    }
}

/// The factor of a cell in the sum of a total where it stands: -1 for imports in GDP, and else 1.
pub fn sign_within(c: Cell, t: Total) -> i8
    ensures { result ≡ sum_rule.sign_in c t }
{
    match c {
        Cell::Import(_) => match t {
            Total::Gdp => -1,
            _ => 1,
        },
        _ => 1,
    }
}

/// The cell's factor in the total's sum: 1, -1 or, where the cell doesn't stand in it, 0.
pub fn adds_to(classes: &Classes, c: Cell, t: Total) -> i8
    requires cell { IsTrue (classes_have.cell_fits classes.now c) }
    requires total { IsTrue (classes_have.total_fits classes.now t) }
    ensures { result ≡ sum_rule.factor (groups_of classes.now) c t }
{
    if stands_in(classes, c, t) {
        sign_within(c, t)
    } else {
        0
    }
}

/// The product of a cell; none for an added item.
pub fn product_of(c: Cell) -> Option<ProductId>
    ensures { result ≡ sum_rule.cell_product c }
{
    match c {
        Cell::Make(i, _)
        | Cell::Import(i)
        | Cell::Basic(i, _)
        | Cell::Margin(_, i, _)
        | Cell::Tax(_, i, _)
        | Cell::Service(i, _) => Some(i),
        Cell::Added(_, _) => None,
    }
}

/// The industry of an added item; none for any other cell.
pub fn industry_of_item(c: Cell) -> Option<IndustryId>
    ensures { result ≡ sum_rule.item_industry c }
{
    match c {
        Cell::Added(_, j) => Some(j),
        _ => None,
    }
}

/// The k-th of these totals.
fn at_place(totals: &[Total], k: usize) -> Option<Total>
    ensures { result ≡ slice_get totals.now k }
{
    totals.get(k).copied()
}

/// The k-th total with a part of a purchase.
fn purchase_total_with(
    product_group: Option<ProductGroupId>,
    i: ProductId,
    q: Column,
    k: usize,
) -> Option<Total>
    ensures { result ≡ slice_get (sum_rule.purchase_totals_by product_group i q) k }
{
    let own = Total::Purchase(i, q);
    match q {
        Column::Industry(j) => match product_group {
            Some(g) => at_place(&[Total::PurchaseGroup(g, q), own, Total::Inputs(j)], k),
            None => at_place(&[own, Total::Inputs(j)], k),
        },
        Column::Final(f) => match product_group {
            Some(g) => at_place(
                &[
                    Total::PurchaseGroup(g, q),
                    own,
                    Total::FinalTotal(f),
                    Total::Gdp,
                ],
                k,
            ),
            None => at_place(&[own, Total::FinalTotal(f), Total::Gdp], k),
        },
    }
}

/// The k-th of these totals and, behind them, of those with a part of a purchase.
fn at_place_or_purchase(
    totals: &[Total],
    product_group: Option<ProductGroupId>,
    i: ProductId,
    q: Column,
    k: usize,
) -> Option<Total>
    ensures { result ≡ slice_get (totals.now ++ sum_rule.purchase_totals_by product_group i q) k }
{
    if k < totals.len() {
        Some(totals[k])
    } else {
        purchase_total_with(product_group, i, q, k - totals.len())
    }
}

/// The k-th total with a margin.
fn margin_total_with(
    product_group: Option<ProductGroupId>,
    m: MarginId,
    i: ProductId,
    q: Column,
    k: usize,
) -> Option<Total>
    ensures { result ≡ slice_get (sum_rule.totals_by product_group None (Cell.Margin m i q)) k }
{
    match product_group {
        Some(g) => {
            let totals = [
                Total::MarginGroup(m, g),
                Total::MarginTotal(m),
                Total::MarginProduct(m, i),
            ];
            at_place_or_purchase(&totals, product_group, i, q, k)
        }
        None => {
            let totals = [Total::MarginTotal(m), Total::MarginProduct(m, i)];
            at_place_or_purchase(&totals, product_group, i, q, k)
        }
    }
}

/// The k-th total with a tax.
fn tax_total_with(
    product_group: Option<ProductGroupId>,
    t: TaxId,
    i: ProductId,
    q: Column,
    k: usize,
) -> Option<Total>
    ensures { result ≡ slice_get (sum_rule.totals_by product_group None (Cell.Tax t i q)) k }
{
    match product_group {
        Some(g) => {
            let totals = [
                Total::TaxGroup(t, g),
                Total::TaxTotal(t),
                Total::TaxProduct(t, i),
            ];
            at_place_or_purchase(&totals, product_group, i, q, k)
        }
        None => {
            let totals = [Total::TaxTotal(t), Total::TaxProduct(t, i)];
            at_place_or_purchase(&totals, product_group, i, q, k)
        }
    }
}

/// The k-th total in whose sum a cell stands, counted from 0; none past the last (there are at
/// most 8). The groups are that of the cell's product, and for an added item that of its industry.
pub fn total_with(
    product_group: Option<ProductGroupId>,
    industry_group: Option<IndustryGroupId>,
    c: Cell,
    k: usize,
) -> Option<Total>
    ensures { result ≡ slice_get (sum_rule.totals_by product_group industry_group c) k }
{
    match c {
        Cell::Make(i, j) => match product_group {
            Some(g) => at_place(
                &[Total::MakeGroup(g, j), Total::Supply(i), Total::Output(j)],
                k,
            ),
            None => at_place(&[Total::Supply(i), Total::Output(j)], k),
        },
        Cell::Import(i) => match product_group {
            Some(g) => at_place(
                &[
                    Total::ImportGroup(g),
                    Total::Supply(i),
                    Total::ImportTotal,
                    Total::Gdp,
                ],
                k,
            ),
            None => at_place(&[Total::Supply(i), Total::ImportTotal, Total::Gdp], k),
        },
        Cell::Basic(i, q) => purchase_total_with(product_group, i, q, k),
        Cell::Margin(m, i, q) => margin_total_with(product_group, m, i, q, k),
        Cell::Tax(t, i, q) => tax_total_with(product_group, t, i, q, k),
        Cell::Service(_, _) => None,
        Cell::Added(v, j) => match industry_group {
            Some(h) => at_place(
                &[
                    Total::ItemGroup(v, h),
                    Total::ValueAdded(j),
                    Total::ItemTotal(v),
                ],
                k,
            ),
            None => at_place(&[Total::ValueAdded(j), Total::ItemTotal(v)], k),
        },
    }
}
