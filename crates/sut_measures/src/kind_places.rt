//! The measure or account of a kind at given places, and the places that are read of a name's fields.

ghost use Rattle.std.specs.Prelude.{◌≡◌};
ghost use Rattle.sut_measures.specs.KindPlaces as kind_places;
ghost use Rattle.sut_measures.specs.Shapes.{seen};

use crate::fields::{column_in, nothing_in, place_in};
use crate::kinds::{AccountKind, CellKind, GroupAccountKind, GroupKind, TotalKind};
use crate::shapes::{Place, Shape};
use crate::{Account, Cell, Field, NameFault, Total};
use sut_classes::{
    Classes, Column, FinalId, IndustryGroupId, IndustryId, ItemId, MarginId, ProductGroupId,
    ProductId, TaxId,
};

/// The code of a place; 0 where it has none.
fn code_of(place: Place) -> u16
    ensures { result ≡ kind_places.code_of place }
{
    match place {
        Place::Code(_, n) => n,
        _ => 0,
    }
}

/// The column of a place; the first industry where it has none.
fn column_of(place: Place) -> Column
    ensures { result ≡ kind_places.column_of place }
{
    match place {
        Place::Buyer(column) => column,
        _ => Column::Industry(IndustryId(0)),
    }
}

/// What the field says, where such a place is due.
fn read_place(classes: &Classes, due: Place, at: Field, text: &[u8]) -> Result<Place, NameFault>
    ensures { result ≡ kind_places.place_read classes.now due at text.now }
{
    match due {
        Place::Nothing => {
            nothing_in(at, text)?;
            Ok(Place::Nothing)
        }
        Place::Code(axis, _) => Ok(Place::Code(axis, place_in(classes, axis, at, text)?)),
        Place::Buyer(_) => Ok(Place::Buyer(column_in(classes, at, text)?)),
    }
}

/// What the fields a and b say, where such a shape is due.
pub fn read_two(
    classes: &Classes,
    due: Shape,
    a: &[u8],
    b: &[u8],
) -> Result<(Place, Place), NameFault>
    ensures { result ≡ kind_places.two_read classes.now (seen due) a.now b.now }
{
    let first = read_place(classes, due.1, Field::A, a)?;
    let second = read_place(classes, due.2, Field::B, b)?;
    Ok((first, second))
}

/// What the field c says, where such a shape is due.
pub fn read_third(classes: &Classes, due: Shape, c: &[u8]) -> Result<Place, NameFault>
    ensures { result ≡ kind_places.place_read classes.now (seen due).c Field.C c.now }
{
    read_place(classes, due.3, Field::C, c)
}

pub fn cell_at(kind: CellKind, a: Place, b: Place, c: Place) -> Cell
    ensures { result ≡ kind_places.cell_at kind a b c }
{
    let n = code_of(a);
    let m = code_of(b);
    let q = column_of(b);
    let r = column_of(c);
    match kind {
        CellKind::Make => Cell::Make(ProductId(n), IndustryId(m)),
        CellKind::Import => Cell::Import(ProductId(n)),
        CellKind::Basic => Cell::Basic(ProductId(n), q),
        CellKind::Margin => Cell::Margin(MarginId(n), ProductId(m), r),
        CellKind::Tax => Cell::Tax(TaxId(n), ProductId(m), r),
        CellKind::Service => Cell::Service(ProductId(n), MarginId(m)),
        CellKind::Added => Cell::Added(ItemId(n), IndustryId(m)),
    }
}

pub fn total_at(kind: TotalKind, a: Place, b: Place) -> Total
    ensures { result ≡ kind_places.total_at kind a b }
{
    let n = code_of(a);
    let m = code_of(b);
    let q = column_of(b);
    match kind {
        TotalKind::Purchase => Total::Purchase(ProductId(n), q),
        TotalKind::Supply => Total::Supply(ProductId(n)),
        TotalKind::Output => Total::Output(IndustryId(n)),
        TotalKind::Inputs => Total::Inputs(IndustryId(n)),
        TotalKind::ValueAdded => Total::ValueAdded(IndustryId(n)),
        TotalKind::ItemTotal => Total::ItemTotal(ItemId(n)),
        TotalKind::FinalTotal => Total::FinalTotal(FinalId(n)),
        TotalKind::ImportTotal => Total::ImportTotal,
        TotalKind::MarginTotal => Total::MarginTotal(MarginId(n)),
        TotalKind::MarginProduct => Total::MarginProduct(MarginId(n), ProductId(m)),
        TotalKind::TaxTotal => Total::TaxTotal(TaxId(n)),
        TotalKind::TaxProduct => Total::TaxProduct(TaxId(n), ProductId(m)),
        TotalKind::Gdp => Total::Gdp,
    }
}

pub fn group_total_at(kind: GroupKind, a: Place, b: Place) -> Total
    ensures { result ≡ kind_places.group_total_at kind a b }
{
    let n = code_of(a);
    let m = code_of(b);
    let q = column_of(b);
    match kind {
        GroupKind::Make => Total::MakeGroup(ProductGroupId(n), IndustryId(m)),
        GroupKind::Import => Total::ImportGroup(ProductGroupId(n)),
        GroupKind::Purchase => Total::PurchaseGroup(ProductGroupId(n), q),
        GroupKind::Margin => Total::MarginGroup(MarginId(n), ProductGroupId(m)),
        GroupKind::Tax => Total::TaxGroup(TaxId(n), ProductGroupId(m)),
        GroupKind::Item => Total::ItemGroup(ItemId(n), IndustryGroupId(m)),
    }
}

pub fn account_at(kind: AccountKind, a: Place, b: Place) -> Account
    ensures { result ≡ kind_places.account_at kind a b }
{
    let n = code_of(a);
    let m = code_of(b);
    let q = column_of(b);
    match kind {
        AccountKind::Supplied => Account::Supplied(ProductId(n)),
        AccountKind::Used => Account::Used(ProductId(n)),
        AccountKind::Bought => Account::Bought(ProductId(n), q),
        AccountKind::Buying => Account::Buying(IndustryId(n)),
        AccountKind::Adding => Account::Adding(IndustryId(n)),
        AccountKind::Industry => Account::Industry(IndustryId(n)),
        AccountKind::Making => Account::Making(IndustryId(n)),
        AccountKind::Final => Account::Final(FinalId(n)),
        AccountKind::Item => Account::Item(ItemId(n)),
        AccountKind::Imports => Account::Imports,
        AccountKind::Services => Account::Services(MarginId(n)),
        AccountKind::Margins => Account::Margins(MarginId(n)),
        AccountKind::MarginOf => Account::MarginOf(MarginId(n), ProductId(m)),
        AccountKind::Taxes => Account::Taxes(TaxId(n)),
        AccountKind::TaxOf => Account::TaxOf(TaxId(n), ProductId(m)),
        AccountKind::Spending => Account::Spending,
        AccountKind::Income => Account::Income,
    }
}

pub fn group_account_at(kind: GroupAccountKind, a: Place, b: Place) -> Account
    ensures { result ≡ kind_places.group_account_at kind a b }
{
    let n = code_of(a);
    let m = code_of(b);
    let q = column_of(b);
    match kind {
        GroupAccountKind::Making => Account::MakingIn(ProductGroupId(n), IndustryId(m)),
        GroupAccountKind::Importing => Account::Importing(ProductGroupId(n)),
        GroupAccountKind::Buying => Account::BuyingIn(ProductGroupId(n), q),
        GroupAccountKind::Margin => Account::MarginIn(MarginId(n), ProductGroupId(m)),
        GroupAccountKind::Tax => Account::TaxIn(TaxId(n), ProductGroupId(m)),
        GroupAccountKind::Item => Account::ItemIn(ItemId(n), IndustryGroupId(m)),
    }
}
