//! What a bound says of the number of changes.
ghost use Rattle.std.specs.Prelude.{◌≡◌, ◌≤◌, ◌^◌, unsigned_abs};
ghost use Rattle.plan_changes.specs.Changes.{least_changes};

use fixed_num::ceil_div;

/// How many starts a plan changes at least whose value is at least the bound: none for a bound below 0, and else its
/// parts of 10^18, rounded up. Takes no memory.
pub fn least_changes(bound: i128) -> u64
    requires { unsigned_abs bound ≤ 10 ^ 36 }
    ensures { result ≡ least_changes bound }
{
    let least = ceil_div(bound, 1_000_000_000_000_000_000);
    if least > 0 { least as u64 } else { 0 }
}
