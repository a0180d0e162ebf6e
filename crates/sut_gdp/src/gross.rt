//! GDP of a table.

ghost use Rattle.std.specs.Prelude.{◌≡◌};
ghost use Rattle.sut_tables.specs.Gdp.{expenditure, income, production};
ghost use Rattle.sut_tables.specs.Identities.{MeetsIdentities};

use crate::measured::Gdp;
use crate::parts::Parts;
use sut_tables::Table;

/// Three separate sums over any table, which are one number where the identities hold.
pub fn gdp(t: &Table) -> Gdp
    ensures production { result.production ≡ production t.now }
    ensures income { result.income ≡ income t.now }
    ensures expenditure { result.expenditure ≡ expenditure t.now }
    ensures one { MeetsIdentities t.now → (result.production ≡ result.income) × (result.expenditure ≡ result.income) }
{
    let mut parts = Parts::none();
    for held in t.cells() {
        parts.add(held.cell, i128::from(held.number));
    }
    parts.measured()
}
