//! Windows of periods.

use duration_calendar::{Window, in_run};

#[test]
fn a_window_ends_before_past(rt: HostRuntime) {
    let window = Window { from: 2, past: 4 };
    assert!(rt; !in_run(window, 1));
    assert!(rt; in_run(window, 2));
    assert!(rt; in_run(window, 3));
    assert!(rt; !in_run(window, 4));
    assert!(rt; !in_run(Window { from: 4, past: 4 }, 4));
}
