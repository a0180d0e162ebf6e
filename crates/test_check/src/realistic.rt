//! The small whole economy.

use crate::after_runs::accepts;
use std::test::Fail;
use test_years::realistic::FILES;

// The cost of the least tables is worked by hand: each product's gap is spread evenly over its cells that may move.
#[test]
fn whole_economy(rt: HostRuntime) -> Result<(), Fail> {
    assert!(rt; accepts(rt.alloc(), &FILES, 0, "least\ncost 107\n")?);
    Ok(())
}
