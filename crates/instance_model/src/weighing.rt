//! What the scenario sums of a period come to, in numbers.
ghost use Rattle.std.specs.Prelude.{◌≡◌, ◌-◌, ◌*◌, ◌≤◌, ◌^◌, pos, ◌+ℤ◌, ◌-ℤ◌, ◌*ℤ◌, unsigned_abs};
ghost use Rattle.std.specs.Int.{int_max};
ghost use Rattle.instance_model.specs.Plans.{IsSmallSum};

/// How far `n` times the quantile of `n` scenario sums is above their total, or 0, in counts of 10^-12.
pub fn excess_above(n: u32, quantile: i128, total: i128) -> i128
    requires few { n ≤ 1024 }
    requires quantile { IsSmallSum quantile }
    requires total { unsigned_abs total ≤ 1024 * 1024 * 10 ^ 20 }
    ensures value { result ≡ int_max (pos 0) (pos n *ℤ quantile -ℤ total) }
    ensures small { unsigned_abs result ≤ 2 * 1024 * 1024 * 10 ^ 20 }
{
    let above = n as i128 * quantile - total;
    if above > 0 { above } else { 0 }
}

/// The total weighted by `alpha` in millionths, and the excess by the rest, in parts of 10^-18.
pub fn weighted(alpha: u32, total: i128, excess: i128) -> i128
    requires alpha { alpha ≤ 1_000_000 }
    requires total { unsigned_abs total ≤ 1024 * 1024 * 10 ^ 20 }
    requires excess { unsigned_abs excess ≤ 2 * 1024 * 1024 * 10 ^ 20 }
    ensures value { result ≡ (pos alpha *ℤ total) +ℤ (pos (1_000_000 - alpha) *ℤ excess) }
    ensures small { unsigned_abs result ≤ 3 * 1024 * 1024 * 10 ^ 26 }
{
    alpha as i128 * total + (1_000_000 - alpha) as i128 * excess
}
