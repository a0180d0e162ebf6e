//! What a table costs.

ghost use Rattle.std.specs.Prelude.{◌≡◌};
ghost use Rattle.sut_tables.specs.Costs.{cost, IsAdmissible};

use crate::table_values::value;
use crate::{Problem, Table};

/// What an admissible table costs: the sum of the rows' terms at the values of their measures.
pub fn cost(p: &Problem, t: &Table) -> u128
    requires { IsAdmissible p.now t.now }
    ensures { result ≡ cost p.now t.now }
{
    p.kept();
    let mut sum: u128 = 0;
    for row in p.rows() {
        let x = value(t, row.measure()) as i64;
        sum += row.term(x) as u128;
    }
    sum
}
