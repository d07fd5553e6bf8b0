//! Laws of boxes of which one interval is changed. The function does nothing: the contract is the law.
ghost use Rattle.branch_search.specs.node_state.Exclusions.{OthersAreKept, NoOthersArise};

/// An exclusion that doesn't name intervention `i` holds after a change of its interval if and only if
/// it did before; so where no exclusion held, none of these does.
pub fn others_are_kept()
    ensures kept { OthersAreKept }
    ensures none { NoOthersArise }
{}
