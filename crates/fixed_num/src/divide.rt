//! Quotients of whole numbers, rounded down and up.
ghost use Rattle.std.specs.Prelude.{◌≡◌, ◌^◌, ◌≤◌, pos, ◌<ℤ◌, unsigned_abs};
ghost use Rattle.fixed_num.specs.Floors.{floor_quotient, ceil_quotient};

/// `a / b`, rounded toward minus infinity.
pub fn floor_div(a: i128, b: i128) -> i128
    requires positive { pos 0 <ℤ b }
    requires small { unsigned_abs a ≤ 10 ^ 37 }
    ensures { result ≡ floor_quotient a b }
{
    a.div_euclid(b)
}

/// `a / b`, rounded toward plus infinity.
pub fn ceil_div(a: i128, b: i128) -> i128
    requires positive { pos 0 <ℤ b }
    requires small { unsigned_abs a ≤ 10 ^ 37 }
    ensures { result ≡ ceil_quotient a b }
{
    -((-a).div_euclid(b))
}
