//! Counts, sums, amounts and quotients at the edges of what they may be, and their texts.

ghost use Rattle.std.specs.Prelude.{◌≡◌, ◌<◌};

use fixed_num::{Amount, Fixed, Line, Steps, Sum, TooLarge, ceil_div, floor_div};
use std::marker::Brand;
use std::process::Abort;
use std::sync::ledger::{Blank, Ledger};
use std::test::Fail;

#[test]
fn takes_counts_below_the_limit(rt: HostRuntime) -> Result<(), Fail> {
    assert_eq!(rt; Fixed::zero().count(), 0);
    for (count, fits) in [
        (99_999_999_999_999_999_999, true),
        (100_000_000_000_000_000_000, false),
        (-99_999_999_999_999_999_999, true),
        (-100_000_000_000_000_000_000, false),
        (-1, true),
        (i128::MIN, false),
    ] {
        match Fixed::from_count(count) {
            Ok(fixed) => assert_eq!(rt; (fixed.count(), fits), (count, true)),
            Err(TooLarge) => assert!(rt; !fits, "{count}"),
        }
    }
    assert_eq!(rt; Fixed::from(i64::MIN).count(), -9_223_372_036_854_775_808);
    assert_eq!(rt; Fixed::from(u64::MAX).count(), 18_446_744_073_709_551_615);
    let text = format!(in rt.alloc(); "{TooLarge}")?;
    assert_eq!(rt;
        text.as_str(),
        "the count is not below 10^20 in absolute value"
    );
    Ok(())
}

fn compare<L: Ledger>(rt: &impl Abort, blank: Blank) -> Result<(), Fail>
    requires name { blank.name ≡ L.name }
    requires parts { blank.parts ≡ L.parts }
    requires some { 0 < blank.parts }
{
    let mut steps = Steps::<L>::zero(blank);
    let seven = Sum::zero().plus(Fixed::from_count(7)?);
    let below = seven.minus(Fixed::from_count(10)?);
    assert!(rt; Sum::less(below, seven, &mut steps));
    assert!(rt; !Sum::less(seven, below, &mut steps));
    assert!(rt; !Sum::less(seven, seven, &mut steps));
    assert_eq!(rt; below.value(&mut steps), -3);
    assert_eq!(rt; seven.value(&mut steps), 7);
    Ok(())
}

#[test]
fn adds_and_compares(rt: HostRuntime) -> Result<(), Fail> {
    compare::<Brand>(&rt, Blank::new(1))
}

#[test]
fn amounts_add_up(rt: HostRuntime) {
    let five = Amount::zero().plus(Amount::of(5));
    assert_eq!(rt; five.number(), 5);
    assert_eq!(rt; five.minus(Amount::of(7)).number(), -2);
}

#[test]
fn rounds_down_and_up(rt: HostRuntime) {
    for (a, b, floor, ceil) in [
        (7, 2, 3, 4),
        (-7, 2, -4, -3),
        (6, 3, 2, 2),
        (-6, 3, -2, -2),
        (0, 5, 0, 0),
        (-1, 1_000_000, -1, 0),
        (1, 1_000_000, 0, 1),
    ] {
        assert!(rt; b > 0 && i128::unsigned_abs(a) <= 7);
        assert_eq!(rt; floor_div(a, b), floor, "floor of {a} / {b}");
        assert_eq!(rt; ceil_div(a, b), ceil, "ceiling of {a} / {b}");
    }
}

#[test]
fn writes_whole_numbers(rt: HostRuntime) {
    for (n, text) in [
        (0, "0"),
        (-1, "-1"),
        (3_500_000_000_000_000_000, "3500000000000000000"),
        (i128::MAX, "170141183460469231731687303715884105727"),
        (i128::MIN, "-170141183460469231731687303715884105728"),
    ] {
        assert_eq!(rt; Line::of_int(n).bytes(), text.as_bytes(), "{n}");
    }
}

#[test]
fn writes_numbers_from_0_on(rt: HostRuntime) {
    for (n, text) in [(0, "0"), (10, "10"), (u64::MAX, "18446744073709551615")] {
        assert_eq!(rt; Line::of_natural(n).bytes(), text.as_bytes(), "{n}");
    }
}

#[test]
fn writes_twelve_decimals(rt: HostRuntime) {
    for (n, text) in [
        (0, "0.000000000000"),
        (1, "0.000000000001"),
        (-1, "-0.000000000001"),
        (1_000_000_000_000, "1.000000000000"),
        (-1_500_000_000_000, "-1.500000000000"),
        (12_034_000_000_000, "12.034000000000"),
        (i128::MIN, "-170141183460469231731687303.715884105728"),
    ] {
        assert_eq!(rt; Line::of_fixed(n).bytes(), text.as_bytes(), "{n}");
    }
}
