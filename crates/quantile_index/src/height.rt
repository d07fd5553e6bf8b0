//! The law of the height of a tree, which bounds the steps of its changes.
ghost use Rattle.std.specs.Prelude.{◌≡◌, ℕ, ◌+◌, ◌*◌, Some};
ghost use Rattle.quantile_index.specs.HeightLimit.{IsHeightLimit, height_limit};

use crate::row::Row;
use crate::tree_row::TreeRow;

/// What the bound of a `TreeRow` is: four times the height limit, and four more. The
/// function does nothing: its contract is the law.
pub fn height_limits()
    ensures most { ⟦<TreeRow as Row>⟧.most ≡ Some (λ n. 4 * height_limit n + 4) }
    ensures limit { (n : ℕ) → IsHeightLimit n (height_limit n) }
    ensures of_one { height_limit 1 ≡ 2 }
    ensures of_two { height_limit 2 ≡ 3 }
    ensures of_eight { height_limit 8 ≡ 6 }
    ensures of_most { height_limit 1024 ≡ 20 }
{}
