//! The laws of the texts: functions that do nothing, whose contracts are the laws.

ghost use Rattle.std.specs.Prelude.{◌≡◌, ◌≤◌, length, pos};
ghost use Rattle.sut_tables.specs.Costs.{IsAdmissible};
ghost use Rattle.sut_tables.specs.Problems.{IsTableOf};
ghost use Rattle.sut_tables.specs.Values.{int_sum_by};
ghost use Rattle.sut_readback.specs.BalancedText.{balanced_text};
ghost use Rattle.sut_source.specs.SourceText.{source_text};
ghost use Rattle.sut_write.specs.Numbers.{net_margin, supply_at_purchasers};
ghost use Rattle.sut_write.specs.Places.{products};
ghost use Rattle.sut_write.specs.Use.{line_sum};
ghost use Rattle.sut_write.specs.declared.use_table.UseLine.TheVariants as line;

use sut_classes::{MarginId, ProductId};
use sut_settings::Settings;
use sut_tables::{Problem, Table};

/// In the supply table each margin column adds up to 0: the products that provide a margin offset
/// those that bear it (SNA 2008, chapter 14).
pub fn margins_cancel(p: &Problem, t: &Table, k: MarginId)
    requires { IsAdmissible p.now t.now }
    ensures { int_sum_by (λ i. net_margin t.now k i) (products p.now.classes) ≡ pos 0 }
{
    p.kept();
}

/// A product's supply at purchasers' prices is what the use table shows as its uses at purchasers'
/// prices.
pub fn supply_is_use(p: &Problem, t: &Table, i: ProductId)
    requires { IsAdmissible p.now t.now }
    ensures { supply_at_purchasers p.now.classes t.now i ≡ line_sum p.now.classes t.now (line.Purchasers i) }
{
    p.kept();
}

/// The text of a balanced table has at most 67,108,864 bytes.
pub fn balanced_short(p: &Problem, t: &Table)
    requires { IsTableOf p.now t.now }
    ensures { length (balanced_text p.now t.now) ≤ 67108864 }
{
    p.kept();
    p.classes().kept();
    t.cells();
}

/// The text of the rows of a problem has at most 67,108,864 bytes.
pub fn source_short(s: &Settings, p: &Problem)
    ensures { length (source_text s.now p.now) ≤ 67108864 }
{
    s.kept();
    p.kept();
    p.classes().kept();
}
