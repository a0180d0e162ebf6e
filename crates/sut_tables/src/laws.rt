//! The laws of tables: functions that do nothing, whose contracts are the laws (SNA 2008, chapter 14).

ghost use Rattle.std.specs.Prelude.{IsNone, ◌↔◌};
ghost use Rattle.sut_tables.specs.Problems.{IsTableOf};
ghost use Rattle.sut_tables.specs.Costs.{IsAdmissible};
ghost use Rattle.sut_tables.specs.Breaks.{first_break};
ghost use Rattle.sut_tables.specs.Laws.{Conservation, ValuesBalance, BalancedAreValues, ValuesGiveBack, OneGdp};

use crate::{Problem, Table};

/// What enters the accounts is what leaves them.
pub fn conservation()
    ensures { Conservation }
{}

/// What enters each live account is what leaves it.
pub fn values_balance()
    ensures { ValuesBalance }
{}

/// Numbers that balance are a table's values.
pub fn balanced_are_values()
    ensures { BalancedAreValues }
{}

/// A table and its values give each other back.
pub fn values_give_back()
    ensures { ValuesGiveBack }
{}

/// GDP by production, income and expenditure is one number, where the identities hold.
pub fn one_gdp()
    ensures { OneGdp }
{}

/// No break is first exactly where a table is admissible.
pub fn no_break(p: &Problem, t: &Table)
    requires { IsTableOf p.now t.now }
    ensures { IsNone (first_break p.now t.now) ↔ IsAdmissible p.now t.now }
{
    p.kept();
}
