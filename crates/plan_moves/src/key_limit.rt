//! What a limit on keys asks of the score.
ghost use Rattle.std.specs.Prelude.{◌^◌, ◌<◌, ℤ, ◌<ℤ◌, ◌≤ℤ◌, unsigned_abs};
ghost use Rattle.instance_model.specs.Keys.{KeyBelow};

use instance_model::Key;

/// The scores below it are those with which a key of this violation is below the limit: all, where the violation is
/// below that of the limit.
pub(crate) fn score_limit(violation: i128, limit: Key) -> i128
    requires { violation ≤ℤ limit.violation }
    ensures below { (s : ℤ) → s <ℤ result → KeyBelow (record { violation = violation; score = s }) limit }
    ensures above { (s : ℤ) → unsigned_abs s < 10 ^ 33 → result ≤ℤ s
        → ¬ KeyBelow (record { violation = violation; score = s }) limit }
{
    if violation < limit.violation {
        i128::MAX
    } else {
        limit.score
    }
}
