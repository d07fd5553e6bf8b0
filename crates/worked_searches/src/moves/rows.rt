//! Rows of sums, of both kinds: ranks found among few sums and among as many as there may be.

ghost use Rattle.std.specs.Prelude.{◌≡◌, ◌<◌, length};

use fixed_num::{Fixed, Steps, Sum};
use quantile_index::{FlatRow, Row, TreeRow, height_limits};
use std::alloc::Global;
use std::marker::Brand;
use std::process::Abort;
use std::sync::ledger::{Blank, Ledger};
use std::test::Fail;

fn sum_of(count: i128) -> Result<Sum, Fail> {
    Ok(Sum::zero().plus(Fixed::from_count(count)?))
}

/// Asserts that the sums in order are those wanted.
fn assert_ranks<R: Row, L: Ledger>(rt: &impl Abort, row: &R, wanted: &[i128], steps: &mut Steps<L>)
    requires { length wanted.now ≡ length (R.sums row.now) }
{
    assert_eq!(rt; row.len() as usize, wanted.len());
    for (before, want) in wanted.iter().enumerate() {
        let m = before as u32 + 1;
        assert_eq!(rt; row.kth(m, steps).value(steps), *want, "rank {m}");
    }
}

/// A row of five sums with ties, changed three times, and a row of one.
fn rank_few<R: Row, L: Ledger>(rt: &impl Abort, alloc: Global, blank: Blank) -> Result<(), Fail>
    requires name { blank.name ≡ L.name }
    requires parts { blank.parts ≡ L.parts }
    requires some { 0 < blank.parts }
{
    let mut steps = Steps::<L>::zero(blank);
    let five = sum_of(5)?;
    let below = sum_of(-3)?;
    let mut row = R::make(alloc, &[five, below, five, Sum::zero(), below])?;
    assert_ranks(rt, &row, &[-3, -3, 0, 5, 5], &mut steps);
    assert_eq!(rt; row.get(4).value(&mut steps), 0);
    row.replace(2, sum_of(7)?, &mut steps);
    assert_ranks(rt, &row, &[-3, 0, 5, 5, 7], &mut steps);
    row.replace(1, sum_of(-10)?, &mut steps);
    row.replace(4, below, &mut steps);
    assert_ranks(rt, &row, &[-10, -3, -3, 5, 7], &mut steps);
    for (k, want) in [(1, -10), (2, 7), (3, 5), (4, -3), (5, -3)] {
        assert!(rt; 1 <= k && k <= row.len());
        assert_eq!(rt; row.get(k).value(&mut steps), want, "scenario {k}");
    }
    let mut one = R::make(alloc, &[five])?;
    one.replace(1, below, &mut steps);
    assert_ranks(rt, &one, &[-3], &mut steps);
    Ok(())
}

/// A row of three sums, all changed at once, and then one of them.
fn change_all<R: Row, L: Ledger>(rt: &impl Abort, alloc: Global, blank: Blank) -> Result<(), Fail>
    requires name { blank.name ≡ L.name }
    requires parts { blank.parts ≡ L.parts }
    requires some { 0 < blank.parts }
{
    let mut steps = Steps::<L>::zero(blank);
    let five = sum_of(5)?;
    let mut row = R::make(alloc, &[Sum::zero(), five, sum_of(-3)?])?;
    row.replace_all(&[five, sum_of(-1)?, five], &mut steps);
    assert_ranks(rt, &row, &[-1, 5, 5], &mut steps);
    row.replace(3, sum_of(-7)?, &mut steps);
    assert_ranks(rt, &row, &[-7, -1, 5], &mut steps);
    Ok(())
}

/// A row of four sums, all changed at once: to sums whose sort keys have 64 bits above the least, to others that are
/// too far apart, and to equal ones.
fn change_widths<R: Row, L: Ledger>(
    rt: &impl Abort,
    alloc: Global,
    blank: Blank,
) -> Result<(), Fail>
    requires name { blank.name ≡ L.name }
    requires parts { blank.parts ≡ L.parts }
    requires some { 0 < blank.parts }
{
    let mut steps = Steps::<L>::zero(blank);
    let zero = Sum::zero();
    let three = sum_of(3)?;
    // 1,024 times this sum is the first number that hasn't 64 bits.
    let edge = sum_of(18_014_398_509_481_984)?;
    let high = sum_of(90_000_000_000_000_000_000)?;
    let low = sum_of(-90_000_000_000_000_000_000)?;
    let mut row = R::make(alloc, &[high, high, zero, low])?;
    // The least and the greatest key are 2^64 - 3 apart, and then 2^64 + 1.
    row.replace_all(&[edge, three, three, zero], &mut steps);
    assert_ranks(rt, &row, &[0, 3, 3, 18_014_398_509_481_984], &mut steps);
    row.replace_all(&[edge, three, zero, edge], &mut steps);
    assert_ranks(
        rt,
        &row,
        &[0, 3, 18_014_398_509_481_984, 18_014_398_509_481_984],
        &mut steps,
    );
    row.replace_all(&[high, low, three, low], &mut steps);
    assert_ranks(
        rt,
        &row,
        &[
            -90_000_000_000_000_000_000,
            -90_000_000_000_000_000_000,
            3,
            90_000_000_000_000_000_000,
        ],
        &mut steps,
    );
    row.replace_all(&[high, high, high, high], &mut steps);
    row.replace(3, three, &mut steps);
    assert_ranks(
        rt,
        &row,
        &[
            3,
            90_000_000_000_000_000_000,
            90_000_000_000_000_000_000,
            90_000_000_000_000_000_000,
        ],
        &mut steps,
    );
    Ok(())
}

/// Gives each scenario a sum, one after another: 1, 2 and so on, or the same from the last one on.
fn refill<R: Row, L: Ledger>(row: &mut R, rising: bool, steps: &mut Steps<L>) -> Result<(), Fail>
    ensures { length (R.sums row.new) ≡ length (R.sums row.old) }
{
    let n = row.len();
    for k in 1..n + 1 {
        let count = if rising { k } else { n + 1 - k };
        row.replace(k, sum_of(i128::from(count))?, steps);
    }
    Ok(())
}

/// A row of as many sums as a row may have: all equal, then replaced in ascending and in descending order.
fn rank_most<R: Row, L: Ledger>(rt: &impl Abort, alloc: Global, blank: Blank) -> Result<(), Fail>
    requires name { blank.name ≡ L.name }
    requires parts { blank.parts ≡ L.parts }
    requires some { 0 < blank.parts }
{
    let mut steps = Steps::<L>::zero(blank);
    let mut row = R::make(alloc, &[sum_of(4)?; 1024])?;
    for m in 1..row.len() + 1 {
        assert_eq!(rt;
            row.kth(m, &mut steps).value(&mut steps),
            4,
            "rank {m} of equal sums"
        );
    }
    for rising in [true, false] {
        refill(&mut row, rising, &mut steps)?;
        for m in 1..row.len() + 1 {
            assert_eq!(rt;
                row.kth(m, &mut steps).value(&mut steps),
                i128::from(m),
                "rank {m}"
            );
        }
    }
    assert_eq!(rt; row.len(), 1024);
    assert_eq!(rt; row.get(1).value(&mut steps), 1024);
    Ok(())
}

#[test]
fn finds_ranks_among_few_sums(rt: HostRuntime) -> Result<(), Fail> {
    height_limits();
    rank_few::<FlatRow, Brand>(&rt, rt.alloc(), Blank::new(1))?;
    rank_few::<TreeRow, Brand>(&rt, rt.alloc(), Blank::new(1))
}

#[test]
fn finds_ranks_among_1024_sums(rt: HostRuntime) -> Result<(), Fail> {
    rank_most::<FlatRow, Brand>(&rt, rt.alloc(), Blank::new(1))?;
    rank_most::<TreeRow, Brand>(&rt, rt.alloc(), Blank::new(1))
}

#[test]
fn changes_all_sums_at_once(rt: HostRuntime) -> Result<(), Fail> {
    change_all::<TreeRow, Brand>(&rt, rt.alloc(), Blank::new(1))?;
    change_all::<FlatRow, Brand>(&rt, rt.alloc(), Blank::new(1))
}

#[test]
fn changes_all_sums_near_and_far(rt: HostRuntime) -> Result<(), Fail> {
    change_widths::<TreeRow, Brand>(&rt, rt.alloc(), Blank::new(1))?;
    change_widths::<FlatRow, Brand>(&rt, rt.alloc(), Blank::new(1))
}
