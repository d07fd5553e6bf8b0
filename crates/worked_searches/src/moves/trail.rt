//! The trail of changes that can be taken back.

use std::test::Fail;
use undo_trail::{Step, Trail};

#[test]
fn gives_steps_back_from_the_last(rt: HostRuntime) -> Result<(), Fail> {
    let first = Step::Move { i: 3, from: 7 };
    let second = Step::Swap { i: 0, j: 1 };
    let mut trail = Trail::make(rt.alloc());
    assert_eq!(rt; trail.pop(), None);
    trail.reserve(2)?;
    trail.push(first);
    trail.reserve(1)?;
    assert_eq!(rt; trail.spare(), 1, "a smaller reserve changes nothing");
    trail.push(second);
    assert_eq!(rt; trail.spare(), 0);
    assert_eq!(rt; trail.pop(), Some(second));
    assert_eq!(rt; trail.pop(), Some(first));
    assert_eq!(rt; trail.pop(), None);
    assert_eq!(rt; trail.spare(), 2);
    Ok(())
}
