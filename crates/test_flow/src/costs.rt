//! Where numbers settle, and the ranges of costs.

ghost use Rattle.std.specs.Prelude.{◌*◌, ◌^◌, ◌≤ℤ◌, pos};
ghost use Rattle.flow_cost.specs.Cost.{IsWithin};

use flow_cost::{Absolute, Band, Cost, Either, Free, Linear, Square, settle};
use std::process::Abort;
use std::test::Fail;

/// A start, two bounds, a step and a slope, and where the start settles.
type Case = (i64, i64, i64, i64, i128, i64);

/// Tests that a number lies between two bounds, and these within a span.
fn assert_bounds(rt: &impl Abort, x: i64, lo: i64, hi: i64, span: i64)
    ensures low { (lo ≤ℤ x) × IsWithin span lo }
    ensures high { (x ≤ℤ hi) × IsWithin span hi }
{
    assert!(rt; span >= 1);
    assert!(rt; lo >= -span);
    assert!(rt; lo <= x);
    assert!(rt; x <= hi);
    assert!(rt; hi <= span);
}

/// Tests that a step and a slope are in range.
fn assert_step(rt: &impl Abort, step: i64, slope: i128)
    ensures step { (pos 1 ≤ℤ step) × (step ≤ℤ pos (2 ^ 40)) }
    ensures slope { IsWithin (pos (2 * 10 ^ 24)) slope }
{
    assert!(rt; step >= 1);
    assert!(rt; step <= 1 << 40);
    assert!(rt; slope >= -2_000_000_000_000_000_000_000_000);
    assert!(rt; slope <= 2_000_000_000_000_000_000_000_000);
}

/// Where a number settles, after a test of what that requires.
fn settled<C: Cost>(rt: &impl Abort, cost: &C, (x, lo, hi, step, slope, _want): Case) -> i64 {
    assert_bounds(rt, x, lo, hi, cost.span());
    assert_step(rt, step, slope);
    settle(cost, x, lo, hi, step, slope)
}

fn check<C: Cost>(rt: &impl Abort, cost: &C, cases: &[Case]) {
    for case in cases {
        assert_eq!(rt; settled(rt, cost, *case), case.5, "{case:?}");
    }
}

#[test]
fn settles(rt: HostRuntime) -> Result<(), Fail> {
    const END: i64 = 1_000_000_000_000;
    let square = Square::new(10, 1).ok_or("target")?;
    check(
        &rt,
        &square,
        &[
            (0, 0, 8, 1, 0, 8),
            (0, 0, 8, 1, -5, 7),
            (8, 0, 8, 1, -5, 8),
            (0, 0, 8, 4, 0, 8),
            (0, 0, 8, 3, 0, 6),
            (20, 0, 30, 7, 0, 13),
            (-END, -END, END, 1, 0, 10),
            (END, -END, END, 1 << 39, 0, 1_000_000_000_000 - (1 << 40)),
            (-END, -END, END, 1 << 40, 0, (1 << 40) - 1_000_000_000_000),
            (-END, -END, END, 1 << 40, -100_000_000_000_000_000_000, -END),
        ],
    );
    let absolute = Absolute::new(5, 3).ok_or("target")?;
    check(
        &rt,
        &absolute,
        &[
            (0, 0, 20, 1, 3, 5),
            (9, 0, 20, 1, 3, 9),
            (9, 0, 20, 2, 2, 5),
        ],
    );
    let band = Band::new(0, 1, 2).ok_or("width")?;
    check(
        &rt,
        &band,
        &[(10, -50, 50, 1, 0, 2), (-10, -50, 50, 1, 0, -2)],
    );
    let linear = Linear::new(4, 100).ok_or("span")?;
    check(
        &rt,
        &linear,
        &[
            (0, -7, 50, 1, 3, -7),
            (0, -7, 50, 1, 4, 0),
            (0, -7, 50, 8, 5, 48),
        ],
    );
    let free: Either<Square, Free> = Either::Other(Free);
    check(
        &rt,
        &free,
        &[(0, -3, 1 << 60, 1, 1, 1 << 60), (0, -3, 9, 2, -1, -2)],
    );
    let one: Either<Square, Free> = Either::One(square);
    check(&rt, &one, &[(0, 0, 8, 1, -5, 7)]);
    Ok(())
}

#[test]
fn costs_within_their_limits(rt: HostRuntime) {
    const END: i64 = 1_000_000_000_000;
    assert!(rt; Square::new(END, 10_000).is_some() && Square::new(-END, 1).is_some());
    assert!(rt; Square::new(END + 1, 1).is_none() && Square::new(0, 10_001).is_none());
    assert!(rt; Absolute::new(-END - 1, 1).is_none() && Absolute::new(0, 0).is_none());
    assert!(rt; Band::new(0, 1, END).is_some() && Band::new(0, 1, END + 1).is_none());
    assert!(rt; Band::new(0, 1, -1).is_none() && Band::new(0, 0, 1).is_none());
    assert!(rt; Linear::new(0, 1 << 60).is_some() && Linear::new(0, (1 << 60) + 1).is_none());
    assert!(rt; Linear::new(40_000_000_000_000_000, END).is_some());
    assert!(rt; Linear::new(40_000_000_000_000_001, 1).is_none() && Linear::new(1, 0).is_none());
    assert!(rt; Linear::new(-40_000_000_000_000_000, END + 1).is_none());
}
