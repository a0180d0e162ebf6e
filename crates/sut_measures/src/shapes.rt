//! The shape of each measure and account: its word and its places.

ghost use Rattle.std.specs.Prelude.{◌≡◌};
ghost use Rattle.sut_measures.specs.Shapes.{seen};
ghost use Rattle.sut_measures.specs.Shapes as shapes;

use crate::shapes::Place::{Buyer, Code, Nothing};
use crate::{Account, Cell, Measure, Total};
use sut_classes::{Axis, Column};

/// What a field of a name tells.
#[derive(Debug, Clone, Copy)]
pub enum Place {
    /// Nothing: the field is empty.
    Nothing,
    /// The code at this place of an axis.
    Code(Axis, u16),
    /// The code of a column: of an industry or a final use.
    Buyer(Column),
}

/// A word and three places, those of the fields a, b and c.
#[derive(Debug, Clone, Copy)]
pub struct Shape(pub &'static str, pub Place, pub Place, pub Place);

pub fn cell_shape(c: Cell) -> Shape
    ensures { seen result ≡ shapes.cell_shape c }
{
    match c {
        Cell::Make(i, j) => Shape(
            "make",
            Code(Axis::Product, i.0),
            Code(Axis::Industry, j.0),
            Nothing,
        ),
        Cell::Import(i) => Shape("import", Code(Axis::Product, i.0), Nothing, Nothing),
        Cell::Basic(i, q) => Shape("basic", Code(Axis::Product, i.0), Buyer(q), Nothing),
        Cell::Margin(k, i, q) => Shape(
            "margin",
            Code(Axis::Margin, k.0),
            Code(Axis::Product, i.0),
            Buyer(q),
        ),
        Cell::Tax(t, i, q) => Shape(
            "tax",
            Code(Axis::Tax, t.0),
            Code(Axis::Product, i.0),
            Buyer(q),
        ),
        Cell::Service(i, k) => Shape(
            "service",
            Code(Axis::Product, i.0),
            Code(Axis::Margin, k.0),
            Nothing,
        ),
        Cell::Added(v, j) => Shape(
            "added",
            Code(Axis::Item, v.0),
            Code(Axis::Industry, j.0),
            Nothing,
        ),
    }
}

pub fn total_shape(t: Total) -> Shape
    ensures { seen result ≡ shapes.total_shape t }
{
    match t {
        Total::Purchase(i, q) => Shape("purchase", Code(Axis::Product, i.0), Buyer(q), Nothing),
        Total::Supply(i) => Shape("supply", Code(Axis::Product, i.0), Nothing, Nothing),
        Total::Output(j) => Shape("output", Code(Axis::Industry, j.0), Nothing, Nothing),
        Total::Inputs(j) => Shape("inputs", Code(Axis::Industry, j.0), Nothing, Nothing),
        Total::ValueAdded(j) => Shape("value_added", Code(Axis::Industry, j.0), Nothing, Nothing),
        Total::ItemTotal(v) => Shape("item_total", Code(Axis::Item, v.0), Nothing, Nothing),
        Total::FinalTotal(f) => Shape("final_total", Code(Axis::Final, f.0), Nothing, Nothing),
        Total::ImportTotal => Shape("import_total", Nothing, Nothing, Nothing),
        Total::MarginTotal(k) => Shape("margin_total", Code(Axis::Margin, k.0), Nothing, Nothing),
        Total::MarginProduct(k, i) => Shape(
            "margin_product",
            Code(Axis::Margin, k.0),
            Code(Axis::Product, i.0),
            Nothing,
        ),
        Total::TaxTotal(u) => Shape("tax_total", Code(Axis::Tax, u.0), Nothing, Nothing),
        Total::TaxProduct(u, i) => Shape(
            "tax_product",
            Code(Axis::Tax, u.0),
            Code(Axis::Product, i.0),
            Nothing,
        ),
        Total::Gdp => Shape("gdp", Nothing, Nothing, Nothing),
        Total::MakeGroup(g, j) => Shape(
            "make_group",
            Code(Axis::ProductGroup, g.0),
            Code(Axis::Industry, j.0),
            Nothing,
        ),
        Total::ImportGroup(g) => Shape(
            "import_group",
            Code(Axis::ProductGroup, g.0),
            Nothing,
            Nothing,
        ),
        Total::PurchaseGroup(g, q) => Shape(
            "purchase_group",
            Code(Axis::ProductGroup, g.0),
            Buyer(q),
            Nothing,
        ),
        Total::MarginGroup(k, g) => Shape(
            "margin_group",
            Code(Axis::Margin, k.0),
            Code(Axis::ProductGroup, g.0),
            Nothing,
        ),
        Total::TaxGroup(u, g) => Shape(
            "tax_group",
            Code(Axis::Tax, u.0),
            Code(Axis::ProductGroup, g.0),
            Nothing,
        ),
        Total::ItemGroup(v, h) => Shape(
            "item_group",
            Code(Axis::Item, v.0),
            Code(Axis::IndustryGroup, h.0),
            Nothing,
        ),
    }
}

pub fn account_shape(a: Account) -> Shape
    ensures { seen result ≡ shapes.account_shape a }
{
    match a {
        Account::Supplied(i) => Shape("supplied", Code(Axis::Product, i.0), Nothing, Nothing),
        Account::Used(i) => Shape("used", Code(Axis::Product, i.0), Nothing, Nothing),
        Account::Bought(i, q) => Shape("bought", Code(Axis::Product, i.0), Buyer(q), Nothing),
        Account::Buying(j) => Shape("buying", Code(Axis::Industry, j.0), Nothing, Nothing),
        Account::Adding(j) => Shape("adding", Code(Axis::Industry, j.0), Nothing, Nothing),
        Account::Industry(j) => Shape("industry", Code(Axis::Industry, j.0), Nothing, Nothing),
        Account::Making(j) => Shape("making", Code(Axis::Industry, j.0), Nothing, Nothing),
        Account::Final(f) => Shape("final", Code(Axis::Final, f.0), Nothing, Nothing),
        Account::Item(v) => Shape("item", Code(Axis::Item, v.0), Nothing, Nothing),
        Account::Imports => Shape("imports", Nothing, Nothing, Nothing),
        Account::Services(k) => Shape("services", Code(Axis::Margin, k.0), Nothing, Nothing),
        Account::Margins(k) => Shape("margins", Code(Axis::Margin, k.0), Nothing, Nothing),
        Account::MarginOf(k, i) => Shape(
            "margin_of",
            Code(Axis::Margin, k.0),
            Code(Axis::Product, i.0),
            Nothing,
        ),
        Account::Taxes(t) => Shape("taxes", Code(Axis::Tax, t.0), Nothing, Nothing),
        Account::TaxOf(t, i) => Shape(
            "tax_of",
            Code(Axis::Tax, t.0),
            Code(Axis::Product, i.0),
            Nothing,
        ),
        Account::Spending => Shape("spending", Nothing, Nothing, Nothing),
        Account::Income => Shape("income", Nothing, Nothing, Nothing),
        Account::MakingIn(g, j) => Shape(
            "making_in",
            Code(Axis::ProductGroup, g.0),
            Code(Axis::Industry, j.0),
            Nothing,
        ),
        Account::Importing(g) => Shape(
            "importing",
            Code(Axis::ProductGroup, g.0),
            Nothing,
            Nothing,
        ),
        Account::BuyingIn(g, q) => Shape(
            "buying_in",
            Code(Axis::ProductGroup, g.0),
            Buyer(q),
            Nothing,
        ),
        Account::MarginIn(k, g) => Shape(
            "margin_in",
            Code(Axis::Margin, k.0),
            Code(Axis::ProductGroup, g.0),
            Nothing,
        ),
        Account::TaxIn(t, g) => Shape(
            "tax_in",
            Code(Axis::Tax, t.0),
            Code(Axis::ProductGroup, g.0),
            Nothing,
        ),
        Account::ItemIn(v, h) => Shape(
            "item_in",
            Code(Axis::Item, v.0),
            Code(Axis::IndustryGroup, h.0),
            Nothing,
        ),
    }
}

pub fn measure_shape(m: Measure) -> Shape
    ensures { seen result ≡ shapes.measure_shape m }
{
    match m {
        Measure::Cell(c) => cell_shape(c),
        Measure::Total(t) => total_shape(t),
    }
}
