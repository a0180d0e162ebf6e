//! The groups of all products and all industries, as lists by place.

ghost use Rattle.std.specs.Prelude.{◌≡◌, IfOk, option_map, slice_get};
ghost use Rattle.sut_classes.specs.Groups.{group_in, groups_of};
ghost use Rattle.sut_classes.specs.declared.ids.IndustryId.{IndustryId};
ghost use Rattle.sut_classes.specs.declared.ids.ProductId.{ProductId};
ghost use Rattle.sut_measures.specs.Sums.{cell_product, item_industry};

use no_memory::NoMemory;
use std::alloc::Global;
use sut_classes::{Axis, Classes, IndustryGroupId, IndustryId, ProductGroupId, ProductId};
use sut_measures::{Cell, industry_of_item, product_of};

// For each product, in order, the group that it is in, or none.
pub(crate) fn product_groups(
    alloc: Global,
    classes: &Classes,
) -> Result<Vec<Option<ProductGroupId>>, NoMemory>
    ensures { IfOk result (λ v. v.items ≡ (groups_of classes.now).of_product) }
{
    let mut groups = Vec::new(alloc);
    for place in 0..classes.count(Axis::Product) {
        groups.push(classes.group_of(ProductId(place as u16)))?;
    }
    Ok(groups)
}

// For each industry, in order, the group that it is in, or none.
pub(crate) fn industry_groups(
    alloc: Global,
    classes: &Classes,
) -> Result<Vec<Option<IndustryGroupId>>, NoMemory>
    ensures { IfOk result (λ v. v.items ≡ (groups_of classes.now).of_industry) }
{
    let mut groups = Vec::new(alloc);
    for place in 0..classes.count(Axis::Industry) {
        groups.push(classes.group_of_industry(IndustryId(place as u16)))?;
    }
    Ok(groups)
}

// The group at a place of a list; none where there is no such place.
fn group_at<G: Copy>(groups: &[Option<G>], place: u16) -> Option<G>
    ensures { result ≡ group_in (slice_get groups.now place) }
{
    match groups.get(place as usize) {
        Some(group) => *group,
        None => None,
    }
}

// The group of a cell's product, by the groups of all products.
pub(crate) fn product_group_of(groups: &[Option<ProductGroupId>], c: Cell) -> Option<ProductGroupId>
    ensures { result ≡ group_in (option_map (λ (i : ProductId). group_in (slice_get groups.now i.0)) (cell_product c)) }
{
    match product_of(c) {
        Some(i) => group_at(groups, i.0),
        None => None,
    }
}

// The group of an added item's industry, by the groups of all industries.
pub(crate) fn industry_group_of(
    groups: &[Option<IndustryGroupId>],
    c: Cell,
) -> Option<IndustryGroupId>
    ensures { result ≡ group_in (option_map (λ (j : IndustryId). group_in (slice_get groups.now j.0)) (item_industry c)) }
{
    match industry_of_item(c) {
        Some(j) => group_at(groups, j.0),
        None => None,
    }
}
