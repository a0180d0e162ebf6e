//! The measures that a row makes live: its own, and for a cell the totals in whose sum it stands.

ghost use Rattle.std.specs.Prelude.{◌≡◌, slice_get};
ghost use Rattle.sut_classes.specs.Groups.{groups_of};
ghost use Rattle.sut_measures.specs.Sums.{cell_product_group, cell_industry_group};
ghost use Rattle.sut_tables.specs.Problems.{made_live};

use std::marker::Model;
use sut_classes::{Classes, IndustryGroupId, ProductGroupId};
use sut_measures::{Cell, Measure, industry_of_item, product_of, total_with};

// Contracts see the list of the measures.
#[derive(Drop)]
pub(crate) struct MadeLive {
    measure: Measure,
    // of a cell's product, and of an added item's industry
    product_group: Option<ProductGroupId>,
    industry_group: Option<IndustryGroupId>,
}

impl Model for MadeLive {
    ghost use Rattle.std.specs.Prelude.{List};
    ghost use Rattle.sut_measures.specs.declared.measures.Measure.{Measure};
    ghost use Rattle.sut_tables.specs.MadeLive.{made_by};

    ghost Value = { List Measure };

    ghost view = { λ m. made_by m.product_group m.industry_group m.measure };
}

fn product_group_of(classes: &Classes, c: Cell) -> Option<ProductGroupId>
    ensures { result ≡ cell_product_group (groups_of classes.now) c }
{
    match product_of(c) {
        Some(i) => classes.group_of(i),
        None => None,
    }
}

fn industry_group_of(classes: &Classes, c: Cell) -> Option<IndustryGroupId>
    ensures { result ≡ cell_industry_group (groups_of classes.now) c }
{
    match industry_of_item(c) {
        Some(j) => classes.group_of_industry(j),
        None => None,
    }
}

impl MadeLive {
    /// What a row of a measure makes live: the measure and, for a cell, the totals whose sum has it.
    pub fn of(classes: &Classes, measure: Measure) -> MadeLive
        ensures { result ≡ made_live (groups_of classes.now) measure }
    {
        match measure {
            Measure::Cell(c) => MadeLive {
                measure,
                product_group: product_group_of(classes, c),
                industry_group: industry_group_of(classes, c),
            },
            Measure::Total(_) => MadeLive {
                measure,
                product_group: None,
                industry_group: None,
            },
        }
    }

    /// The k-th of them, counted from 0.
    pub fn get(&self, k: usize) -> Option<Measure>
        ensures { result ≡ slice_get self.now k }
    {
        if k == 0 {
            return Some(self.measure);
        }
        match self.measure {
            Measure::Cell(c) => {
                match total_with(self.product_group, self.industry_group, c, k - 1) {
                    Some(t) => Some(Measure::Total(t)),
                    None => None,
                }
            }
            Measure::Total(_) => None,
        }
    }
}
