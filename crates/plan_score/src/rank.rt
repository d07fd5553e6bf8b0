//! The scenario sum at a rank: a contract sees it as the m-th smallest of the list.
ghost use Rattle.std.specs.Prelude.{◌≡◌, ◌≤◌, length, All};
ghost use Rattle.fixed_num.specs.Rank.{mth_smallest};
ghost use Rattle.instance_model.specs.Plans.{IsSmallSum};

/// The sum at a rank in ascending order. The sums are put in that order.
pub(crate) fn sum_at_rank(sums: &mut Vec<i128>, rank: u32) -> i128
    requires from { 1 ≤ rank }
    requires to { rank ≤ length sums.old.items }
    requires small { All IsSmallSum sums.old.items }
    ensures value { result ≡ mth_smallest rank sums.old.items }
    ensures small { IsSmallSum result }
{
    sums.sort_unstable();
    sums[rank as usize - 1]
}
