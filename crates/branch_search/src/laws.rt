//! The laws of parts of a tree. The functions do nothing: their contracts are the laws.
ghost use Rattle.branch_search.specs.Joining.{OthersStay, PartsJoin};

/// The leaves of other parts stand where they were: each has a leaf over its box in every tree that goes on with a part.
pub fn others_stay()
    ensures { OthersStay }
{}

/// Trees that go on with all parts of one tree prove a bound together, where each proves it with its own leaves: in the
/// place of each leaf of that one tree stands what stands there in the tree of the leaf's part.
pub fn parts_join()
    ensures { PartsJoin }
{}
