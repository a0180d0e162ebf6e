//! `accounts.csv`.

ghost use Rattle.std.specs.Prelude.{◌≡◌, ◌++◌, IfOk, OnOk, map};
ghost use Rattle.std.specs.List.{flat_map};
ghost use Rattle.sut_text.specs.Text.{line_text};
ghost use Rattle.sut_text.specs.Fields.{field_bytes};
ghost use Rattle.sut_tables.specs.Problems.{IsTableOf};
ghost use Rattle.sut_write.specs.Accounts as lines;
ghost use Rattle.sut_write.specs.Accounts.{accounts_text};
ghost use Rattle.sut_write.specs.Places.{finals, industries, items, products};

use crate::codes::code_of;
use crate::numbers::{all_inputs, all_outputs, all_taxes, used, value_in};
use no_memory::NoMemory;
use std::alloc::Global;
use sut_classes::{Axis, FinalId, IndustryId, ItemId, ProductId};
use sut_gdp::gdp;
use sut_measures::{Measure, Total};
use sut_tables::{Problem, Table};
use sut_text::fields::{Field, put_line};
use sut_text::put_bytes;

fn put_entry<'a>(
    out: &mut Vec<u8>,
    account: Field<'a>,
    name: Field<'a>,
    value: i128,
) -> Result<(), NoMemory>
    ensures { OnOk result (out.new.items ≡ out.old.items ++ line_text (lines.entry (field_bytes account.entry) (field_bytes name.entry) value)) }
{
    put_line(out, &[account, name, Field::Whole(value)])?;
    Ok(())
}

fn put_production(out: &mut Vec<u8>, p: &Problem, t: &Table) -> Result<(), NoMemory>
    requires { IsTableOf p.now t.now }
    ensures { OnOk result (out.new.items ≡ out.old.items ++ flat_map line_text (lines.production_entries p.now.classes t.now)) }
{
    let account = Field::Text(b"production");
    put_entry(out, account, Field::Text(b"output"), all_outputs(p, t))?;
    put_entry(out, account, Field::Text(b"intermediate"), all_inputs(p, t))?;
    put_entry(out, account, Field::Text(b"taxes"), all_taxes(p, t))?;
    put_entry(out, account, Field::Text(b"gdp"), gdp(t).production)?;
    Ok(())
}

fn put_item(out: &mut Vec<u8>, p: &Problem, t: &Table, v: ItemId) -> Result<(), NoMemory>
    requires { IsTableOf p.now t.now }
    ensures { OnOk result (out.new.items ≡ out.old.items ++ line_text (lines.item_entry p.now.classes t.now v)) }
{
    let item = Field::Tagged(b"item", code_of(p.classes(), Axis::Item, v.0));
    let value = value_in(p, t, Measure::Total(Total::ItemTotal(v)));
    put_entry(out, Field::Text(b"income"), item, value)?;
    Ok(())
}

fn put_items(out: &mut Vec<u8>, p: &Problem, t: &Table) -> Result<(), NoMemory>
    requires { IsTableOf p.now t.now }
    ensures { OnOk result (out.new.items ≡ out.old.items ++ flat_map line_text (map (lines.item_entry p.now.classes t.now) (items p.now.classes))) }
{
    for place in 0..p.classes().count(Axis::Item) {
        put_item(out, p, t, ItemId(place as u16))?;
    }
    Ok(())
}

fn put_income(out: &mut Vec<u8>, p: &Problem, t: &Table) -> Result<(), NoMemory>
    requires { IsTableOf p.now t.now }
    ensures { OnOk result (out.new.items ≡ out.old.items ++ flat_map line_text (lines.income_entries p.now.classes t.now)) }
{
    let account = Field::Text(b"income");
    put_items(out, p, t)?;
    put_entry(out, account, Field::Text(b"taxes"), all_taxes(p, t))?;
    put_entry(out, account, Field::Text(b"gdp"), gdp(t).income)?;
    Ok(())
}

fn put_final(out: &mut Vec<u8>, p: &Problem, t: &Table, f: FinalId) -> Result<(), NoMemory>
    requires { IsTableOf p.now t.now }
    ensures { OnOk result (out.new.items ≡ out.old.items ++ line_text (lines.final_entry p.now.classes t.now f)) }
{
    let last = Field::Tagged(b"final", code_of(p.classes(), Axis::Final, f.0));
    let value = value_in(p, t, Measure::Total(Total::FinalTotal(f)));
    put_entry(out, Field::Text(b"expenditure"), last, value)?;
    Ok(())
}

fn put_finals(out: &mut Vec<u8>, p: &Problem, t: &Table) -> Result<(), NoMemory>
    requires { IsTableOf p.now t.now }
    ensures { OnOk result (out.new.items ≡ out.old.items ++ flat_map line_text (map (lines.final_entry p.now.classes t.now) (finals p.now.classes))) }
{
    for place in 0..p.classes().count(Axis::Final) {
        put_final(out, p, t, FinalId(place as u16))?;
    }
    Ok(())
}

fn put_expenditure(out: &mut Vec<u8>, p: &Problem, t: &Table) -> Result<(), NoMemory>
    requires { IsTableOf p.now t.now }
    ensures { OnOk result (out.new.items ≡ out.old.items ++ flat_map line_text (lines.expenditure_entries p.now.classes t.now)) }
{
    let account = Field::Text(b"expenditure");
    let imports = value_in(p, t, Measure::Total(Total::ImportTotal));
    put_finals(out, p, t)?;
    put_entry(out, account, Field::Text(b"imports"), imports)?;
    put_entry(out, account, Field::Text(b"gdp"), gdp(t).expenditure)?;
    Ok(())
}

fn put_industry(out: &mut Vec<u8>, p: &Problem, t: &Table, j: IndustryId) -> Result<(), NoMemory>
    requires { IsTableOf p.now t.now }
    ensures { OnOk result (out.new.items ≡ out.old.items ++ flat_map line_text (lines.industry_entries p.now.classes t.now j)) }
{
    let account = Field::Tagged(b"industry", code_of(p.classes(), Axis::Industry, j.0));
    let output = value_in(p, t, Measure::Total(Total::Output(j)));
    let inputs = value_in(p, t, Measure::Total(Total::Inputs(j)));
    let added = value_in(p, t, Measure::Total(Total::ValueAdded(j)));
    put_entry(out, account, Field::Text(b"output"), output)?;
    put_entry(out, account, Field::Text(b"inputs"), inputs)?;
    put_entry(out, account, Field::Text(b"value_added"), added)?;
    Ok(())
}

fn put_industries(out: &mut Vec<u8>, p: &Problem, t: &Table) -> Result<(), NoMemory>
    requires { IsTableOf p.now t.now }
    ensures { OnOk result (out.new.items ≡ out.old.items ++ flat_map line_text (flat_map (lines.industry_entries p.now.classes t.now) (industries p.now.classes))) }
{
    for place in 0..p.classes().count(Axis::Industry) {
        put_industry(out, p, t, IndustryId(place as u16))?;
    }
    Ok(())
}

fn put_product(out: &mut Vec<u8>, p: &Problem, t: &Table, i: ProductId) -> Result<(), NoMemory>
    requires { IsTableOf p.now t.now }
    ensures { OnOk result (out.new.items ≡ out.old.items ++ flat_map line_text (lines.product_entries p.now.classes t.now i)) }
{
    let account = Field::Tagged(b"product", code_of(p.classes(), Axis::Product, i.0));
    let supply = value_in(p, t, Measure::Total(Total::Supply(i)));
    put_entry(out, account, Field::Text(b"supply"), supply)?;
    put_entry(out, account, Field::Text(b"used"), used(p, t, i))?;
    Ok(())
}

fn put_products(out: &mut Vec<u8>, p: &Problem, t: &Table) -> Result<(), NoMemory>
    requires { IsTableOf p.now t.now }
    ensures { OnOk result (out.new.items ≡ out.old.items ++ flat_map line_text (flat_map (lines.product_entries p.now.classes t.now) (products p.now.classes))) }
{
    for place in 0..p.classes().count(Axis::Product) {
        put_product(out, p, t, ProductId(place as u16))?;
    }
    Ok(())
}

/// `accounts.csv`: under the header `account,entry,value` the accounts of
/// production, income and expenditure, each with GDP as its last entry, and then those of each
/// industry and of each product. What is used of a product counts its services as margins.
pub fn accounts_text(alloc: Global, p: &Problem, t: &Table) -> Result<Vec<u8>, NoMemory>
    requires { IsTableOf p.now t.now }
    ensures { IfOk result (λ v. v.items ≡ accounts_text p.now.classes t.now) }
{
    let mut out = Vec::new(alloc);
    put_bytes(&mut out, b"account,entry,value\n")?;
    put_production(&mut out, p, t)?;
    put_income(&mut out, p, t)?;
    put_expenditure(&mut out, p, t)?;
    put_industries(&mut out, p, t)?;
    put_products(&mut out, p, t)?;
    Ok(out)
}
