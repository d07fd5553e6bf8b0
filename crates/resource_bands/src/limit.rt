//! How far a load is outside a limit.
ghost use Rattle.std.specs.Prelude.{◌≡◌, ◌^◌, ◌<◌, pos, ◌-ℤ◌, unsigned_abs};
ghost use Rattle.std.specs.Int.{int_max};

use fixed_num::Amount;

/// How far a load is above a limit.
pub(crate) fn above(load: Amount, limit: i128) -> Amount
    requires load { unsigned_abs load < 10 ^ 30 }
    requires limit { unsigned_abs limit < 10 ^ 30 }
    ensures { result ≡ int_max (pos 0) (load -ℤ limit) }
{
    Amount::of((load.number() - limit).max(0))
}

/// How far a load is below a limit.
pub(crate) fn below(load: Amount, limit: i128) -> Amount
    requires load { unsigned_abs load < 10 ^ 30 }
    requires limit { unsigned_abs limit < 10 ^ 30 }
    ensures { result ≡ int_max (pos 0) (limit -ℤ load) }
{
    Amount::of((limit - load.number()).max(0))
}
