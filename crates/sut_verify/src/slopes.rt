//! What one more of a row's value would cost, and what the last one cost, beside a rise.

ghost use Rattle.std.specs.Prelude.{◌≡◌};
ghost use Rattle.sut_tables.specs.Breaks.{first_of};
ghost use Rattle.sut_tables.specs.Rows.{InRange};
ghost use Rattle.sut_verify.specs.Verdicts.{down_reason, row_reasons, up_reason};

use crate::Reason;
use sut_measures::Measure;
use sut_tables::Row;

fn up(row: &Row, measure: Measure, x: i64, rise: i128) -> Option<Reason>
    requires { InRange x }
    ensures { result ≡ first_of (up_reason measure row.now x rise) }
{
    row.in_range();
    if x >= row.upper() {
        return None;
    }
    let slope = row.term(x + 1) - row.term(x);
    if slope >= rise {
        return None;
    }
    Some(Reason::Up {
        measure,
        slope,
        rise,
    })
}

fn down(row: &Row, measure: Measure, x: i64, rise: i128) -> Option<Reason>
    requires { InRange x }
    ensures { result ≡ first_of (down_reason measure row.now x rise) }
{
    row.in_range();
    if row.lower() >= x {
        return None;
    }
    let slope = row.term(x) - row.term(x - 1);
    if rise >= slope {
        return None;
    }
    Some(Reason::Down {
        measure,
        slope,
        rise,
    })
}

// The first reason at a row with this value: up, then down.
pub(crate) fn against_row(row: &Row, measure: Measure, x: i64, rise: i128) -> Option<Reason>
    requires { InRange x }
    ensures { result ≡ first_of (row_reasons measure row.now x rise) }
{
    match up(row, measure, x, rise) {
        Some(reason) => Some(reason),
        None => down(row, measure, x, rise),
    }
}
