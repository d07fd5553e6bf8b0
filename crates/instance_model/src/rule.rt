//! The rules that a plan can break.

/// A rule that a plan breaks: where, and for a load what it is and the limit that it passes, in counts of 10^-12.
#[derive(Clone, Copy, Debug, PartialEq, Eq)]
pub enum Rule {
    /// Intervention `i` has no start.
    Unscheduled {
        i: u32,
    },
    /// The start of intervention `i` is outside 1 to tmax.
    Outside {
        i: u32,
        s: u32,
    },
    /// The run of intervention `i` ends after the horizon.
    Past {
        i: u32,
        s: u32,
    },
    /// The load of resource `c` in period `t` is above its upper limit.
    Over {
        c: u32,
        t: u32,
        load: i128,
        limit: i128,
    },
    /// The load of resource `c` in period `t` is below its lower limit.
    Under {
        c: u32,
        t: u32,
        load: i128,
        limit: i128,
    },
    /// Both interventions of exclusion `e` are in progress in period `t` of its season.
    Clash {
        e: u32,
        t: u32,
    },
}
