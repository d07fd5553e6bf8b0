//! The best plan so far.
ghost use Rattle.std.specs.Prelude.{◌^◌, ◌<◌, IsTrue, ◌↔◌, unsigned_abs};
ghost use Rattle.branch_search.specs.Valued.{IsSmallValue, IsBelow};

use instance_model::Starts;

/// A feasible plan and its value.
#[derive(Drop)]
pub(crate) struct Best {
    pub(crate) starts: Starts,
    pub(crate) value: i128,
}

/// Whether a number is below the value of the best plan, or there is none.
pub(crate) fn is_below(best: &Option<Best>, z: i128) -> bool
    requires best { IsSmallValue best.now }
    requires small { unsigned_abs z < 10 ^ 37 }
    ensures { IsTrue result ↔ IsBelow best.now z }
{
    match best {
        Some(best) => z < best.value,
        None => true,
    }
}
