//! The sums that GDP is made of.

ghost use Rattle.std.specs.Prelude.{◌≡◌, ◌^◌, ◌+ℤ◌, ◌-ℤ◌, []};
ghost use Rattle.sut_tables.specs.CellSums.{IsUpTo};
ghost use Rattle.sut_gdp.specs.Parts.{AreUpTo, bought_with, parts_of, parts_with};

use crate::measured::Gdp;
use sut_classes::Column;
use sut_measures::Cell;

// Sums over cells, in whole currency units: outputs at basic prices, imports, purchases by
// industries and by final uses at purchasers' prices, taxes on products with subsidies among them,
// and added items.
#[derive(Clone, Copy)]
pub(crate) struct Parts {
    pub(crate) outputs: i128,
    pub(crate) imports: i128,
    pub(crate) inputs: i128,
    pub(crate) final_uses: i128,
    pub(crate) taxes: i128,
    pub(crate) added: i128,
}

impl Parts {
    // Without cells.
    pub(crate) fn none() -> Parts
        ensures { result ≡ parts_of [] }
    {
        Parts {
            outputs: 0,
            imports: 0,
            inputs: 0,
            final_uses: 0,
            taxes: 0,
            added: 0,
        }
    }

    // Adds a part of a purchase.
    fn buy(&mut self, q: Column, x: i128)
        requires parts { AreUpTo (2 ^ 125) self.old }
        requires number { IsUpTo (2 ^ 50) x }
        ensures { self.new ≡ bought_with self.old q x }
    {
        match q {
            Column::Industry(_) => self.inputs += x,
            Column::Final(_) => self.final_uses += x,
        }
    }

    // Adds the number of a cell.
    pub(crate) fn add(&mut self, c: Cell, x: i128)
        requires parts { AreUpTo (2 ^ 125) self.old }
        requires number { IsUpTo (2 ^ 50) x }
        ensures { self.new ≡ parts_with self.old c x }
    {
        match c {
            Cell::Make(_, _) => self.outputs += x,
            Cell::Import(_) => self.imports += x,
            Cell::Basic(_, q) | Cell::Margin(_, _, q) => self.buy(q, x),
            Cell::Tax(_, _, q) => {
                self.buy(q, x);
                self.taxes += x;
            }
            Cell::Service(_, _) => {}
            Cell::Added(_, _) => self.added += x,
        }
    }

    // The three sums of these parts.
    pub(crate) fn measured(&self) -> Gdp
        requires { AreUpTo (2 ^ 125) self.now }
        ensures production { result.production ≡ self.now.outputs -ℤ self.now.inputs +ℤ self.now.taxes }
        ensures income { result.income ≡ self.now.added +ℤ self.now.taxes }
        ensures expenditure { result.expenditure ≡ self.now.final_uses -ℤ self.now.imports }
    {
        Gdp {
            production: self.outputs - self.inputs + self.taxes,
            income: self.added + self.taxes,
            expenditure: self.final_uses - self.imports,
        }
    }
}
