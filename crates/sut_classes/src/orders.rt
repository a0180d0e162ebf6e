//! The derived order of columns is that of their keys.

ghost use Rattle.std.specs.Prelude.{◌≡◌};
ghost use Rattle.std.specs.Ordering.{nat_cmp};
ghost use Rattle.std.specs.Cmp.Lexicographic.{slice_cmp};
ghost use Rattle.sut_classes.specs.Columns.{column_key};

use crate::Column;
use std::cmp::Ordering;

/// How two columns stand in the order of columns: those of industries come before those of final uses, and columns of one
/// kind stand in the order of `classes.csv`.
pub fn column_order(a: Column, b: Column) -> Ordering
    ensures { result ≡ slice_cmp nat_cmp (column_key a) (column_key b) }
{
    a.cmp(&b)
}
