//! A law of descents and scripts.
ghost use Rattle.worked_searches.specs.Falling.{DescentsReplayFalling};

/// The changes of a descent, as a script that is replayed from the plan where it began, have no line that fails, and
/// the keys that are said fall strictly. Does nothing: the contract is the law.
pub fn descents_replay_to_falling_keys()
    ensures { DescentsReplayFalling }
{}
