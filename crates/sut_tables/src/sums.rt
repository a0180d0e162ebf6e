//! The sums that a table keeps beside its cells, and how they change with a cell's number.

ghost use Rattle.std.specs.Prelude.{◌≡◌, ℤ, pos, ◌+ℤ◌, ◌*ℤ◌, ◌^◌, ◌≤◌, Some, IfOk, OnOk, if◌then◌else◌, option_map, slice_get, unwrap_or};
ghost use Rattle.std.specs.List.{list_any};
ghost use Rattle.std.specs.Option.{ForSome};
ghost use Rattle.sut_tables.specs.CellSums.{IsUpTo, IsZeroFor, added_to, kept_for, same_sum, sign_at, sums_by};

use crate::group_lists::{industry_group_of, product_group_of};
use crate::tables::Held;
use no_memory::NoMemory;
use std::alloc::Global;
use std::collections::BTreeMap;
use sut_classes::{IndustryGroupId, MarginId, ProductGroupId, ProductId};
use sut_measures::{Cell, Total, sign_within, total_with};

// A sum over the cells of a table: a total, the basics of a product with its services, or the
// services of a margin kind.
#[derive(Debug, Clone, Copy, PartialEq, Eq, PartialOrd, Ord)]
pub(crate) enum CellSum {
    Total(Total),
    Uses(ProductId),
    Services(MarginId),
}

// The k-th sum in which a cell counts, counted from 0; none past the last.
pub(crate) fn sum_with(
    product_group: Option<ProductGroupId>,
    industry_group: Option<IndustryGroupId>,
    c: Cell,
    k: usize,
) -> Option<CellSum>
    ensures { result ≡ slice_get (sums_by product_group industry_group c) k }
{
    match c {
        Cell::Basic(i, _) if k == 0 => Some(CellSum::Uses(i)),
        Cell::Basic(_, _) => {
            total_with(product_group, industry_group, c, k - 1).map(|t| CellSum::Total(t))
        }
        Cell::Service(i, _) if k == 0 => Some(CellSum::Uses(i)),
        Cell::Service(_, kind) if k == 1 => Some(CellSum::Services(kind)),
        Cell::Service(_, _) => None,
        _ => total_with(product_group, industry_group, c, k).map(|t| CellSum::Total(t)),
    }
}

// The number kept for a sum, or 0.
pub(crate) fn number_for(sums: &BTreeMap<CellSum, i128>, s: CellSum) -> i128
    ensures { result ≡ unwrap_or (kept_for sums.now s) (pos 0) }
{
    sums.get(&s).copied().unwrap_or(0)
}

// Adds to the number kept for a sum, if there is one.
fn add_to(sums: &mut BTreeMap<CellSum, i128>, s: CellSum, amount: i128)
    requires numbers { (q : CellSum) → ForSome (kept_for sums.old q) (IsUpTo (2 ^ 125)) }
    requires amount { IsUpTo (2 ^ 50) amount }
    ensures { (q : CellSum) → kept_for sums.new q ≡ (if same_sum s q then option_map (λ x. x +ℤ amount) (kept_for sums.old q) else kept_for sums.old q) }
{
    if let Some(number) = sums.get_mut(&s) {
        *number += amount;
    }
}

// What a change of a cell's number adds to a sum in which the cell counts.
fn signed(c: Cell, s: CellSum, change: i128) -> i128
    requires { IsUpTo (2 ^ 50) change }
    ensures product { result ≡ sign_at c s *ℤ change }
    ensures small { IsUpTo (2 ^ 50) result }
{
    match s {
        CellSum::Total(t) => {
            if sign_within(c, t) < 0 {
                -change
            } else {
                change
            }
        }
        CellSum::Uses(_) | CellSum::Services(_) => change,
    }
}

// Changes the numbers kept for the sums in which a cell counts, where the cell's number changes.
pub(crate) fn change_sums(
    sums: &mut BTreeMap<CellSum, i128>,
    product_group: Option<ProductGroupId>,
    industry_group: Option<IndustryGroupId>,
    c: Cell,
    change: i128,
)
    requires numbers { (q : CellSum) → ForSome (kept_for sums.old q) (IsUpTo (2 ^ 120)) }
    requires change { IsUpTo (2 ^ 50) change }
    ensures { (q : CellSum) → kept_for sums.new q ≡ option_map (λ x. x +ℤ added_to q c change (sums_by product_group industry_group c)) (kept_for sums.old q) }
{
    // a cell counts in at most 9 sums
    for k in 0..9 {
        if let Some(s) = sum_with(product_group, industry_group, c, k) {
            add_to(sums, s, signed(c, s, change));
        }
    }
}

// Keeps 0 for each sum in which a cell counts.
fn start_sums(
    sums: &mut BTreeMap<CellSum, i128>,
    product_group: Option<ProductGroupId>,
    industry_group: Option<IndustryGroupId>,
    c: Cell,
) -> Result<(), NoMemory>
    ensures { OnOk result ((q : CellSum) → kept_for sums.new q ≡ (if list_any (λ w. same_sum w q) (sums_by product_group industry_group c) then Some (pos 0) else kept_for sums.old q)) }
{
    // a cell counts in at most 9 sums
    for k in 0..9 {
        if let Some(s) = sum_with(product_group, industry_group, c, k) {
            sums.insert(s, 0)?;
        }
    }
    Ok(())
}

// 0 for each sum in which one of the cells counts.
pub(crate) fn zero_sums(
    alloc: Global,
    product_groups: &[Option<ProductGroupId>],
    industry_groups: &[Option<IndustryGroupId>],
    cells: &[Held],
) -> Result<BTreeMap<CellSum, i128>, NoMemory>
    ensures { IfOk result (λ m. (q : CellSum) → IsZeroFor (record { of_product = product_groups.now; of_industry = industry_groups.now }) cells.now q m) }
{
    let mut sums = BTreeMap::new(alloc);
    for held in cells {
        let product_group = product_group_of(product_groups, held.cell);
        let industry_group = industry_group_of(industry_groups, held.cell);
        start_sums(&mut sums, product_group, industry_group, held.cell)?;
    }
    Ok(sums)
}
