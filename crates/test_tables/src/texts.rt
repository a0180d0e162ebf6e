//! The texts of a small year with two margin kinds, a tax, a subsidy and a product group: its table is balanced by hand.

ghost use Rattle.sut_tables.specs.Problems.{IsTableOf};

use no_memory::NoMemory;
use std::alloc::Global;
use sut_classes::{Classes, read_classes};
use sut_settings::{Settings, read_settings};
use sut_source::read_source;
use sut_tables::{Problem, Table};
use sut_write::{accounts_text, balanced_text, read_balanced, supply_text, use_text};

/// Bread and milk in one group, trade services, and transport.
const CLASSES: &str = "axis,code,kind,group
margin,TR,,
margin,TP,,
product_group,FOOD,,
product,BRD,plain,FOOD
product,MLK,plain,FOOD
product,SHP,TR,
product,LOR,TP,
industry,A,,
industry,B,,
final,HH,,
final,EXP,,
item,D1,,
item,B2,,
tax,VAT,,
tax,SUB,,
";

/// Of milk 57 was reported as made, and 181 of bread and milk together.
const SOURCE: &str = "kind,a,b,c,target,grade,lower,upper
make,BRD,A,,120,,,
make,MLK,A,,57,,,
make,SHP,B,,30,,,
make,LOR,B,,18,,,
import,MLK,,,15,,,
basic,BRD,HH,,90,,,
basic,BRD,EXP,,30,,,
basic,MLK,A,,25,,,
basic,MLK,HH,,50,,,
basic,SHP,HH,,2,,,
basic,LOR,A,,3,,,
margin,TR,BRD,HH,20,,,
margin,TR,MLK,HH,8,,,
margin,TP,BRD,HH,6,,,
margin,TP,BRD,EXP,4,,,
margin,TP,MLK,A,5,,,
tax,VAT,BRD,HH,12,,,
tax,VAT,MLK,A,2,,,
tax,VAT,MLK,HH,7,,,
tax,SUB,MLK,HH,-9,,,
tax,SUB,LOR,A,-1,,,
service,SHP,TR,,,,0,1000
service,LOR,TP,,,,0,1000
added,D1,A,,100,,,
added,D1,B,,50,,,
added,B2,A,,46,,,
added,B2,B,,,,-1000,1000
make_group,FOOD,A,,181,,,
tax_total,SUB,,,-10,,,
";

/// The table: 60 of milk is made, so 180 of both.
const BALANCED: &str = "kind,a,b,c,target,value
make,BRD,A,,120,120
make,MLK,A,,57,60
make,SHP,B,,30,30
make,LOR,B,,18,18
import,MLK,,,15,15
basic,BRD,HH,,90,90
basic,BRD,EXP,,30,30
basic,MLK,A,,25,25
basic,MLK,HH,,50,50
basic,SHP,HH,,2,2
basic,LOR,A,,3,3
margin,TR,BRD,HH,20,20
margin,TR,MLK,HH,8,8
margin,TP,BRD,HH,6,6
margin,TP,BRD,EXP,4,4
margin,TP,MLK,A,5,5
tax,VAT,BRD,HH,12,12
tax,VAT,MLK,A,2,2
tax,VAT,MLK,HH,7,7
tax,SUB,MLK,HH,-9,-9
tax,SUB,LOR,A,-1,-1
service,SHP,TR,,,28
service,LOR,TP,,,15
added,D1,A,,100,100
added,D1,B,,50,50
added,B2,A,,46,46
added,B2,B,,,-2
purchase,BRD,HH,,,128
purchase,BRD,EXP,,,34
purchase,MLK,A,,,32
purchase,MLK,HH,,,56
purchase,SHP,HH,,,2
purchase,LOR,A,,,2
supply,BRD,,,,120
supply,MLK,,,,75
supply,SHP,,,,30
supply,LOR,,,,18
output,A,,,,180
output,B,,,,48
inputs,A,,,,34
value_added,A,,,,146
value_added,B,,,,48
item_total,D1,,,,150
item_total,B2,,,,44
final_total,HH,,,,186
final_total,EXP,,,,34
import_total,,,,,15
margin_total,TR,,,,28
margin_total,TP,,,,15
margin_product,TR,BRD,,,20
margin_product,TR,MLK,,,8
margin_product,TP,BRD,,,10
margin_product,TP,MLK,,,5
tax_total,VAT,,,,21
tax_total,SUB,,,-10,-10
tax_product,VAT,BRD,,,12
tax_product,VAT,MLK,,,9
tax_product,SUB,MLK,,,-9
tax_product,SUB,LOR,,,-1
gdp,,,,,205
make_group,FOOD,A,,181,180
import_group,FOOD,,,,15
purchase_group,FOOD,A,,,32
purchase_group,FOOD,HH,,,184
purchase_group,FOOD,EXP,,,34
margin_group,TR,FOOD,,,28
margin_group,TP,FOOD,,,15
tax_group,VAT,FOOD,,,21
tax_group,SUB,FOOD,,,-9
";

/// The services are offset against the margins: 28 of trade, 15 of transport.
const SUPPLY: &str =
    "product,make:A,make:B,import,supply,margin:TR,margin:TP,tax:VAT,tax:SUB,purchasers
BRD,120,0,0,120,20,10,12,0,162
MLK,60,0,15,75,8,5,9,-9,88
SHP,0,30,0,30,-28,0,0,0,2
LOR,0,18,0,18,0,-15,0,-1,2
:total,180,48,15,243,0,0,21,-10,254
";

/// Each purchase at purchasers' prices is the sum of its layers.
const USES: &str = "product,layer,industry:A,industry:B,final:HH,final:EXP,total
BRD,basic,0,0,90,30,120
BRD,margin:TR,0,0,20,0,20
BRD,margin:TP,0,0,6,4,10
BRD,tax:VAT,0,0,12,0,12
BRD,tax:SUB,0,0,0,0,0
BRD,purchasers,0,0,128,34,162
MLK,basic,25,0,50,0,75
MLK,margin:TR,0,0,8,0,8
MLK,margin:TP,5,0,0,0,5
MLK,tax:VAT,2,0,7,0,9
MLK,tax:SUB,0,0,-9,0,-9
MLK,purchasers,32,0,56,0,88
SHP,basic,0,0,2,0,2
SHP,margin:TR,0,0,0,0,0
SHP,margin:TP,0,0,0,0,0
SHP,tax:VAT,0,0,0,0,0
SHP,tax:SUB,0,0,0,0,0
SHP,purchasers,0,0,2,0,2
LOR,basic,3,0,0,0,3
LOR,margin:TR,0,0,0,0,0
LOR,margin:TP,0,0,0,0,0
LOR,tax:VAT,0,0,0,0,0
LOR,tax:SUB,-1,0,0,0,-1
LOR,purchasers,2,0,0,0,2
:total,purchasers,34,0,186,34,254
:total,added:D1,100,50,,,150
:total,added:B2,46,-2,,,44
:total,value_added,146,48,,,194
:total,output,180,48,,,228
";

/// GDP is 205 three ways: 228 - 34 + 11, 194 + 11 and 220 - 15.
const ACCOUNTS: &str = "account,entry,value
production,output,228
production,intermediate,34
production,taxes,11
production,gdp,205
income,item:D1,150
income,item:B2,44
income,taxes,11
income,gdp,205
expenditure,final:HH,186
expenditure,final:EXP,34
expenditure,imports,15
expenditure,gdp,205
industry:A,output,180
industry:A,inputs,34
industry:A,value_added,146
industry:B,output,48
industry:B,inputs,0
industry:B,value_added,48
product:BRD,supply,120
product:BRD,used,120
product:MLK,supply,75
product:MLK,used,75
product:SHP,supply,30
product:SHP,used,30
product:LOR,supply,18
product:LOR,used,18
";

/// One of the tables that are written.
#[derive(Clone, Copy)]
enum Text {
    Balanced,
    Supply,
    Uses,
    Accounts,
}

fn text_of(alloc: Global, problem: &Problem, table: &Table, text: Text) -> Result<Vec<u8>, NoMemory>
    requires { IsTableOf problem.now table.now }
{
    match text {
        Text::Balanced => balanced_text(alloc, problem, table),
        Text::Supply => supply_text(alloc, problem, table),
        Text::Uses => use_text(alloc, problem, table),
        Text::Accounts => accounts_text(alloc, problem, table),
    }
}

fn holds_in(alloc: Global, problem: &Problem, table: &Table, text: Text, want: &str) -> bool
    requires { IsTableOf problem.now table.now }
{
    match text_of(alloc, problem, table, text) {
        Ok(found) => found.as_slice() == want.as_bytes(),
        Err(_) => false,
    }
}

fn holds_for(alloc: Global, problem: &Problem, text: Text, want: &str) -> bool {
    match read_balanced(alloc, problem, BALANCED.as_bytes()) {
        Ok(table) => holds_in(alloc, problem, &table, text, want),
        Err(_) => false,
    }
}

fn holds_under(
    alloc: Global,
    settings: &Settings,
    classes: Classes,
    text: Text,
    want: &str,
) -> bool {
    match read_source(alloc, settings, classes, SOURCE.as_bytes()) {
        Ok(problem) => holds_for(alloc, &problem, text, want),
        Err(_) => false,
    }
}

fn holds_with(alloc: Global, settings: &Settings, text: Text, want: &str) -> bool {
    match read_classes(alloc, CLASSES.as_bytes()) {
        Ok(classes) => holds_under(alloc, settings, classes, text, want),
        Err(_) => false,
    }
}

// Whether this is a text of the year.
fn holds(alloc: Global, text: Text, want: &str) -> bool {
    match read_settings(alloc, b"scheme = \"flat\"\n") {
        Ok(settings) => holds_with(alloc, &settings, text, want),
        Err(_) => false,
    }
}

#[test]
fn texts_of_a_small_year(rt: HostRuntime) {
    let cases = [
        (Text::Balanced, BALANCED),
        (Text::Supply, SUPPLY),
        (Text::Uses, USES),
        (Text::Accounts, ACCOUNTS),
    ];
    for (text, want) in cases {
        let written = holds(rt.alloc(), text, want);
        assert!(rt; written, "{want}");
    }
}
