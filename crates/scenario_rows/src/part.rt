//! What a period adds to the score, in numbers.
ghost use Rattle.std.specs.Prelude.{◌≡◌, ◌-◌, ◌*◌, ◌≤◌, ◌^◌, pos, ◌+ℤ◌, ◌-ℤ◌, ◌*ℤ◌, unsigned_abs};
ghost use Rattle.std.specs.Int.{int_max};
ghost use Rattle.fixed_num.specs.Floors.{floor_of};
ghost use Rattle.instance_model.specs.Plans.{IsSmallSum};

use fixed_num::{Amount, floor_div};
use instance_model::{excess_above, weighted};

/// The weighted mean and excess of `n` sums with this quantile and total, rounded down.
pub(crate) fn part(alpha: u32, n: u32, quantile: i128, total: i128) -> Amount
    requires alpha { alpha ≤ 1_000_000 }
    requires some { 1 ≤ n }
    requires few { n ≤ 1024 }
    requires quantile { IsSmallSum quantile }
    requires total { unsigned_abs total ≤ 1024 * 1024 * 10 ^ 20 }
    ensures { result ≡ floor_of ((pos alpha *ℤ total)
        +ℤ (pos (1_000_000 - alpha) *ℤ int_max (pos 0) (pos n *ℤ quantile -ℤ total))) n }
{
    let excess = excess_above(n, quantile, total);
    Amount::of(floor_div(weighted(alpha, total, excess), n as i128))
}
