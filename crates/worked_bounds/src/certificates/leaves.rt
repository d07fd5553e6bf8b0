//! Leaves that hold or don't, each on an instance that is one edit away from a known one.

use crate::Audit;
use crate::certificates::edges::audit_bound;
use crate::certificates::given::{apart, audited, fails_at, is_proved};
use crate::samples::floor;
use certificate_text::Bound;
use std::alloc::Global;
use std::process::Abort;
use std::test::Fail;

/// The lines of a tree, where no plan is said to be feasible.
struct Leaves {
    /// What is replaced in the instance, and by what.
    edit: (&'static str, &'static str),
    tree: &'static str,
    /// The first leaf that doesn't hold, or 0.
    fails: u64,
}

/// Both may start in period 1 alone, where they are too much and exclude each other.
const TOGETHER: (&str, &str) = (r#""tmax":2"#, r#""tmax":1"#);

/// Neither ends in time.
const LATE: (&str, &str) = (r#""Delta":[1,1]"#, r#""Delta":[3,3]"#);

/// `A` excludes itself, and so may not run at all.
const ALONE: (&str, &str) = (r#"["A","B","w"]"#, r#"["A","A","w"]"#);

const AS_IS: (&str, &str) = ("T", "T");

/// On `apart`.
const APART_LEAVES: [Leaves; 15] = [
    Leaves {
        edit: TOGETHER,
        tree: "excl 1\n",
        fails: 0,
    },
    Leaves {
        edit: TOGETHER,
        tree: "band 1 1 over\n",
        fails: 0,
    },
    Leaves {
        edit: TOGETHER,
        tree: "band 1 2 over\n",
        fails: 1,
    },
    Leaves {
        edit: TOGETHER,
        tree: "point\n",
        fails: 0,
    },
    Leaves {
        edit: TOGETHER,
        tree: "cost 0\n",
        fails: 1,
    },
    // One start of A meets one of B, the other two starts don't meet.
    Leaves {
        edit: AS_IS,
        tree: "excl 1\n",
        fails: 1,
    },
    Leaves {
        edit: AS_IS,
        tree: "point\n",
        fails: 1,
    },
    // A load of exactly the limit keeps it.
    Leaves {
        edit: ("[10,10]", "[12,12]"),
        tree: "split 1 1\nsplit 2 1\nband 1 1 over\ncost 0\ncost 0\n",
        fails: 1,
    },
    Leaves {
        edit: ("[10,10]", "[11.999999999999,12]"),
        tree: "split 1 1\nsplit 2 1\nband 1 1 over\ncost 0\ncost 0\n",
        fails: 2,
    },
    // Some start is left, also where it is one of two.
    Leaves {
        edit: AS_IS,
        tree: "empty 2\n",
        fails: 1,
    },
    Leaves {
        edit: LATE,
        tree: "empty 2\n",
        fails: 0,
    },
    Leaves {
        edit: LATE,
        tree: "cost 0\n",
        fails: 1,
    },
    Leaves {
        edit: LATE,
        tree: "split 1 1\nsplit 2 1\npoint\nempty 1\nempty 2\n",
        fails: 0,
    },
    // Each start of A meets itself, and not the other.
    Leaves {
        edit: ALONE,
        tree: "split 1 1\nexcl 1\nexcl 1\n",
        fails: 0,
    },
    Leaves {
        edit: ALONE,
        tree: "excl 1\n",
        fails: 1,
    },
];

/// On `floor`.
const FLOOR_LEAVES: [Leaves; 2] = [
    Leaves {
        edit: AS_IS,
        tree: "band 1 1 under\n",
        fails: 1,
    },
    Leaves {
        edit: ("[5,0]", "[5.000000000001,0]"),
        tree: "band 1 1 under\n",
        fails: 0,
    },
];

/// What a tree comes to on an edited instance, where the bound is none.
fn audit_edited(alloc: Global, whole: &str, edit: (&str, &str), tree: &str) -> Result<Audit, Fail> {
    let (old, new) = edit;
    let text = whole.replace(alloc, old, new)?;
    audit_tree(alloc, text.as_str(), tree)
}

/// What a tree comes to, where the bound is none.
fn audit_tree(alloc: Global, whole: &str, tree: &str) -> Result<Audit, Fail> {
    let text = format!(in alloc; "mpcert 1\nbound none\nlists 0\ntree\n{tree}")?;
    Ok(audited(alloc, whole, text.as_bytes())??)
}

/// Whether the first leaf that doesn't hold is the one that is said.
fn hold_as_said(rt: &impl Abort, alloc: Global, whole: &str, trees: &[Leaves]) -> Result<(), Fail> {
    for leaves in trees {
        let audit = audit_edited(alloc, whole, leaves.edit, leaves.tree)?;
        let want = match leaves.fails {
            0 => Audit::Proved(Bound::NoPlan),
            n => Audit::LeafFails { n },
        };
        assert_eq!(rt; audit, want);
    }
    Ok(())
}

#[test]
fn leaves_hold_exactly_where_no_plan_is_left(rt: HostRuntime) -> Result<(), Fail> {
    hold_as_said(&rt, rt.alloc(), apart(), &APART_LEAVES)?;
    hold_as_said(&rt, rt.alloc(), floor(), &FLOOR_LEAVES)
}

/// A price of 2 on an exclusion in period 1.
const PRICED: &str = "lists 1\nprices\nex 1 1 2000000\ntree\ncost 1\n";

/// A costs 4 in either period, B nothing in period 1, and 2 is taken off once.
#[test]
fn an_exclusion_of_one_is_priced_twice(rt: HostRuntime) -> Result<(), Fail> {
    let alloc = rt.alloc();
    let (old, new) = ALONE;
    let text = apart().replace(alloc, old, new)?;
    let whole = text.as_str();
    let bound = Bound::Least(2_000_000_000_000_000_000);
    is_proved(&rt, audit_bound(alloc, whole, bound, PRICED)?, bound);
    let past = Bound::Least(2_000_000_000_000_000_001);
    fails_at(&rt, audit_bound(alloc, whole, past, PRICED)?, 1);
    Ok(())
}
