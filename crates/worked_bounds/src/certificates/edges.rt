//! Certificates accepted at the exact edge of their bounds, and refused one past it.
//!
//! A score is the cost times 10^18 times the number of periods. Where the mean alone
//! costs, it is the sum of the risks times 10^18.

use crate::Audit;
use crate::certificates::given::{apart, audited, fails_at, is_proved};
use crate::samples::{floor, skewed};
use certificate_text::Bound;
use std::alloc::{AllocError, Global};
use std::process::Abort;
use std::test::Fail;

/// One: 10^18, what a risk of 1 adds to a score.
const ONE: i128 = 1_000_000_000_000_000_000;

/// The greatest bound that these lines prove.
struct Edge {
    lines: &'static str,
    bound: i128,
    /// The leaf that fails one past it.
    past: u64,
    /// The leaf that fails where the bound is none.
    none: u64,
}

/// On `apart`.
const APART_EDGES: [Edge; 5] = [
    // Each plan by itself: both start in 1, A alone does, B alone does, both start in 2.
    Edge {
        lines: "lists 0\ntree\nsplit 1 1\nsplit 2 1\nexcl 1\npoint\nsplit 2 1\npoint\nband 1 2 over\n",
        bound: 2 * ONE,
        past: 2,
        none: 2,
    },
    // The same, by the starts of B first and by the list of zeros.
    Edge {
        lines: "lists 0\ntree\nsplit 2 1\nsplit 1 1\nband 1 1 over\ncost 0\nsplit 1 1\ncost 0\nexcl 1\n",
        bound: 2 * ONE,
        past: 3,
        none: 2,
    },
    // A price of 2 on being together in period 1: A costs 2 or 4, B costs 2, and 2 is taken off.
    Edge {
        lines: "lists 1\nprices\nex 1 1 2000000\ntree\ncost 1\n",
        bound: 2 * ONE,
        past: 1,
        none: 1,
    },
    // A price of 0.333333 on the load of period 1: A and B cost 1.999998 each, and
    // 3.33333 is taken off for the limit of 10.
    Edge {
        lines: "lists 1\nprices\nup 1 1 333333\ntree\ncost 1\n",
        bound: 666_666_000_000_000_000,
        past: 1,
        none: 1,
    },
    // The least risks, by the list of zeros, whatever the other list asks for.
    Edge {
        lines: "lists 1\nprices\nex 1 1 2000000\ntree\ncost 0\n",
        bound: 0,
        past: 1,
        none: 1,
    },
];

/// On `floor`.
const FLOOR_EDGES: [Edge; 2] = [
    // A price of 0.6 on what lacks in period 1: start 1 costs 3 less 3, start 2
    // nothing, and 3 is added for the limit of 5.
    Edge {
        lines: "lists 1\nprices\nlo 1 1 600000\ntree\ncost 1\n",
        bound: 3 * ONE,
        past: 1,
        none: 1,
    },
    Edge {
        lines: "lists 0\ntree\nsplit 1 1\ncost 0\nband 1 1 under\n",
        bound: 3 * ONE,
        past: 1,
        none: 1,
    },
];

/// On `skewed`.
const SKEWED_EDGES: [Edge; 4] = [
    // Half of the mean of 2, and half of 3 less 2.
    Edge {
        lines: "lists 0\ntree\npoint\n",
        bound: ONE + ONE / 2,
        past: 1,
        none: 1,
    },
    // The same by a tail of the greater risk.
    Edge {
        lines: "lists 1\nprices\ntail 1 1000 2\ntree\ncost 1\n",
        bound: ONE + ONE / 2,
        past: 1,
        none: 1,
    },
    // At half the weight, half of 3 less 2 counts half.
    Edge {
        lines: "lists 1\nprices\ntail 1 500 2\ntree\ncost 1\n",
        bound: ONE + ONE / 4,
        past: 1,
        none: 1,
    },
    // Of both scenarios the lesser risk counts, which is 1 below the mean.
    Edge {
        lines: "lists 1\nprices\ntail 1 1000 1 2\ntree\ncost 1\n",
        bound: ONE / 2,
        past: 1,
        none: 1,
    },
];

/// The word for a bound.
fn word_of(alloc: Global, bound: Bound) -> Result<String, AllocError> {
    match bound {
        Bound::NoPlan => String::from_str(alloc, "none"),
        Bound::Least(score) => format!(in alloc; "{score}"),
    }
}

/// What lines come to behind a bound.
pub fn audit_bound(alloc: Global, whole: &str, bound: Bound, lines: &str) -> Result<Audit, Fail> {
    let word = word_of(alloc, bound)?;
    let word = word.as_str();
    let text = format!(in alloc; "mpcert 2\nbound {word}\n{lines}")?;
    Ok(audited(alloc, whole, text.as_bytes())??)
}

/// Whether each bound is proved, and one past it and none are refused at their leaves.
fn are_edges(rt: &impl Abort, alloc: Global, whole: &str, edges: &[Edge]) -> Result<(), Fail> {
    for edge in edges {
        is_edge(rt, alloc, whole, edge)?;
    }
    Ok(())
}

fn is_edge(rt: &impl Abort, alloc: Global, whole: &str, edge: &Edge) -> Result<(), Fail> {
    let bound = Bound::Least(edge.bound);
    is_proved(rt, audit_bound(alloc, whole, bound, edge.lines)?, bound);
    let past = Bound::Least(edge.bound.saturating_add(1));
    fails_at(rt, audit_bound(alloc, whole, past, edge.lines)?, edge.past);
    fails_at(
        rt,
        audit_bound(alloc, whole, Bound::NoPlan, edge.lines)?,
        edge.none,
    );
    Ok(())
}

#[test]
fn the_edge_of_a_bound_is_proved_and_no_more(rt: HostRuntime) -> Result<(), Fail> {
    are_edges(&rt, rt.alloc(), apart(), &APART_EDGES)?;
    are_edges(&rt, rt.alloc(), floor(), &FLOOR_EDGES)?;
    are_edges(&rt, rt.alloc(), skewed(), &SKEWED_EDGES)
}
