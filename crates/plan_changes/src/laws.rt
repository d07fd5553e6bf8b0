//! Laws of changes. The functions do nothing: the contract is the law.
ghost use Rattle.plan_changes.specs.Changes.{BasesAddUp, BoundsCountChanges, OldStartsAreNoChanges};

/// Whatever the prices are, the bases of a plan's starts add up to its value.
pub fn change_bases_add_up()
    ensures { BasesAddUp }
{}

/// A bound is at most the value of so many changes exactly where it says that there are no more of them at least.
pub fn bounds_count_changes()
    ensures { BoundsCountChanges }
{}

/// A plan of old starts has no change.
pub fn old_starts_are_no_changes()
    ensures { OldStartsAreNoChanges }
{}
