//! The numbers that the texts print. A value over a table of a problem lies within 2^58 of 0.

ghost use Rattle.std.specs.Prelude.{◌≡◌, ◌≤◌, ◌^◌};
ghost use Rattle.sut_tables.specs.CellSums.{IsUpTo};
ghost use Rattle.sut_tables.specs.Identities.{used_and_serving};
ghost use Rattle.sut_tables.specs.Problems.{IsTableOf};
ghost use Rattle.sut_tables.specs.Values.{int_sum_by, value_of};
ghost use Rattle.sut_write.specs.Numbers as number;
ghost use Rattle.sut_write.specs.Places.{below};
ghost use Rattle.sut_write.specs.Series.{measure_in};

use sut_classes::{Axis, Column, FinalId, IndustryId, MarginId, ProductId, TaxId};
use sut_measures::{Cell, Measure, Total};
use sut_tables::{Problem, Table, value};

/// Measures that are summed over a list of places.
#[derive(Clone, Copy)]
pub(crate) enum Series {
    Outputs,
    Inputs,
    Taxes,
    TaxesOf(ProductId),
    /// The basics of a product by industry.
    Intermediate(ProductId),
    /// The basics of a product by final use.
    Final(ProductId),
    ServicesOf(ProductId),
}

// The value of a measure.
pub(crate) fn value_in(p: &Problem, t: &Table, m: Measure) -> i128
    requires { IsTableOf p.now t.now }
    ensures value { result ≡ value_of t.now m }
    ensures small { IsUpTo (2 ^ 58) result }
{
    p.kept();
    t.cells();
    value(t, m)
}

fn measure_of(series: Series, place: u16) -> Measure
    ensures { result ≡ measure_in series place }
{
    match series {
        Series::Outputs => Measure::Total(Total::Output(IndustryId(place))),
        Series::Inputs => Measure::Total(Total::Inputs(IndustryId(place))),
        Series::Taxes => Measure::Total(Total::TaxTotal(TaxId(place))),
        Series::TaxesOf(i) => Measure::Total(Total::TaxProduct(TaxId(place), i)),
        Series::Intermediate(i) => {
            Measure::Cell(Cell::Basic(i, Column::Industry(IndustryId(place))))
        }
        Series::Final(i) => Measure::Cell(Cell::Basic(i, Column::Final(FinalId(place)))),
        Series::ServicesOf(i) => Measure::Cell(Cell::Service(i, MarginId(place))),
    }
}

// The sum of the values of a series at the first places.
fn sum_of(p: &Problem, t: &Table, series: Series, count: usize) -> i128
    requires of_problem { IsTableOf p.now t.now }
    requires few { count ≤ 512 }
    ensures sum { result ≡ int_sum_by (λ n. value_of t.now (measure_in series n)) (below count) }
    ensures small { IsUpTo (2 ^ 67) result }
{
    let mut sum: i128 = 0;
    for place in 0..count {
        sum += value_in(p, t, measure_of(series, place as u16));
    }
    sum
}

pub(crate) fn all_outputs(p: &Problem, t: &Table) -> i128
    requires { IsTableOf p.now t.now }
    ensures { result ≡ number.all_outputs p.now.classes t.now }
{
    sum_of(p, t, Series::Outputs, p.classes().count(Axis::Industry))
}

pub(crate) fn all_inputs(p: &Problem, t: &Table) -> i128
    requires { IsTableOf p.now t.now }
    ensures { result ≡ number.all_inputs p.now.classes t.now }
{
    sum_of(p, t, Series::Inputs, p.classes().count(Axis::Industry))
}

pub(crate) fn all_taxes(p: &Problem, t: &Table) -> i128
    requires { IsTableOf p.now t.now }
    ensures { result ≡ number.all_taxes p.now.classes t.now }
{
    sum_of(p, t, Series::Taxes, p.classes().count(Axis::Tax))
}

// The margins of a kind on a product, less the product's own services.
pub(crate) fn net_margin(p: &Problem, t: &Table, k: MarginId, i: ProductId) -> i128
    requires { IsTableOf p.now t.now }
    ensures value { result ≡ number.net_margin t.now k i }
    ensures small { IsUpTo (2 ^ 59) result }
{
    let margins = value_in(p, t, Measure::Total(Total::MarginProduct(k, i)));
    margins - value_in(p, t, Measure::Cell(Cell::Service(i, k)))
}

// The net margins of the first kinds on a product.
fn margins_on(p: &Problem, t: &Table, i: ProductId, count: usize) -> i128
    requires of_problem { IsTableOf p.now t.now }
    requires few { count ≤ 512 }
    ensures sum { result ≡ int_sum_by (λ n. number.net_margin t.now (record { 0 = n }) i) (below count) }
    ensures small { IsUpTo (2 ^ 68) result }
{
    let mut sum: i128 = 0;
    for kind in 0..count {
        sum += net_margin(p, t, MarginId(kind as u16), i);
    }
    sum
}

// The supply of a product at purchasers' prices.
pub(crate) fn supply_at_purchasers(p: &Problem, t: &Table, i: ProductId) -> i128
    requires { IsTableOf p.now t.now }
    ensures value { result ≡ number.supply_at_purchasers p.now.classes t.now i }
    ensures small { IsUpTo (2 ^ 69) result }
{
    let supply = value_in(p, t, Measure::Total(Total::Supply(i)));
    let margins = margins_on(p, t, i, p.classes().count(Axis::Margin));
    let taxes = sum_of(p, t, Series::TaxesOf(i), p.classes().count(Axis::Tax));
    supply + margins + taxes
}

// What is used of a product: its basics and its services.
pub(crate) fn used(p: &Problem, t: &Table, i: ProductId) -> i128
    requires { IsTableOf p.now t.now }
    ensures { result ≡ used_and_serving t.now i }
{
    p.kept();
    let intermediate = sum_of(
        p,
        t,
        Series::Intermediate(i),
        p.classes().count(Axis::Industry),
    );
    let by_finals = sum_of(p, t, Series::Final(i), p.classes().count(Axis::Final));
    let services = sum_of(p, t, Series::ServicesOf(i), p.classes().count(Axis::Margin));
    intermediate + by_finals + services
}
