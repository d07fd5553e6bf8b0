//! The answer of a search, of what is kept.
ghost use Rattle.std.specs.Prelude.{◌≡◌, ℕ, ℤ, List, IfOk};
ghost use Rattle.branch_search.specs.Shapes.{Shape, IsShapeOf};
ghost use Rattle.branch_search.specs.Valued.{plan_in};
ghost use Rattle.branch_search.specs.Aside.{IsLeastWorth};
ghost use Rattle.branch_search.specs.States.{IsKept, bound_with, IsAnswerOf};

use crate::SearchEnd;
use crate::best::Best;
use crate::splitting::open_worth;
use crate::tree::growth::Growth;
use crate::tree::nodes::nodes_of;
use certificate_tree::{Bound, Nodes};
use instance_model::Starts;
use std::alloc::{AllocError, Global};

/// The bound where this worth is the least that is left, or where none is.
fn bound_of(left: Option<i128>, best: &Option<Best>) -> Bound
    ensures { result ≡ bound_with left best.now }
{
    if let Some(worth) = left {
        return Bound::Least(worth);
    }
    match best {
        Some(best) => Bound::Least(best.value),
        None => Bound::NoPlan,
    }
}

/// The starts of the best plan, or none.
fn starts_of(best: Option<Best>) -> Option<Starts>
    ensures { result ≡ plan_in best }
{
    match best {
        Some(Best { starts, .. }) => Some(starts),
        None => None,
    }
}

/// The bound, the nodes and the best plan. All that waits or is set aside is given up as `cost` leaves.
pub(crate) fn finish(alloc: Global, growth: Growth) -> Result<SearchEnd, AllocError>
    requires kept { IsKept growth }
    requires shape { (shape : Shape) × IsShapeOf growth.cells.items shape }
    ensures { IfOk result (λ answer.
        (aside : List (ℤ × ℕ)) → IsLeastWorth growth.aside aside → IsAnswerOf growth aside answer) }
{
    let left = open_worth(&growth);
    let nodes = nodes_of(alloc, growth.cells.as_slice())?;
    let bound = bound_of(left, &growth.best);
    Ok(SearchEnd {
        bound,
        nodes: Nodes::from_vec(nodes),
        best: starts_of(growth.best),
        unfinished: left.is_some(),
    })
}
