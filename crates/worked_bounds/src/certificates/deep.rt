//! A certificate whose tree splits intervention after intervention and start after start,
//! compared with a walk that makes each box afresh.

use crate::Audit;
use crate::certificates::given::audited;
use certificate_text::Bound;
use std::alloc::{AllocError, Global};
use std::process::Abort;
use std::test::Fail;

/// Interventions, which may start at any of their starts.
const INTERVENTIONS: u64 = 20;

pub const STARTS: u64 = 50;

/// What a risk of 1 adds to a score, where the mean alone costs and each period has one scenario.
const ONE: i128 = 1_000_000_000_000_000_000;

/// The risk of an intervention, counted from 1, at a start: its number at the last start, and before that more, which
/// falls from intervention to intervention and from start to start, though not at each. So leaves all along the tree
/// are the first that fails for some bound, as they aren't on a drawn instance.
fn risk(i: u64, start: u64) -> u64 {
    if start == STARTS {
        return i;
    }
    let n = i
        .saturating_sub(1)
        .saturating_mul(STARTS - 1)
        .saturating_add(start);
    let falling = 1000u64.saturating_sub(n);
    let uneven = n.saturating_mul(13) % 17;
    i.saturating_add(falling).saturating_add(uneven)
}

/// What each start of each intervention adds to a score in this instance.
fn shares(alloc: Global) -> Result<Vec<i128>, AllocError> {
    let mut shares = Vec::new(alloc);
    for i in 1..=INTERVENTIONS {
        for start in 1..=STARTS {
            shares.push(i128::from(risk(i, start)).saturating_mul(ONE))?;
        }
    }
    Ok(shares)
}

/// What intervention `i` adds at a start, both counted from 1.
fn share(shares: &[i128], i: u64, start: u64) -> i128 {
    let at = i
        .saturating_sub(1)
        .saturating_mul(STARTS)
        .saturating_add(start)
        .saturating_sub(1);
    shares.get(at as usize).copied().unwrap_or(0)
}

/// The least sum of shares in the box of a leaf: `i` has this start, interventions before it have the last one, and
/// those behind it any.
pub fn least(shares: &[i128], i: u64, start: u64) -> i128 {
    let mut sum = 0i128;
    for j in 1..=INTERVENTIONS {
        let (first, last) = match j {
            j if j < i => (STARTS, STARTS),
            j if j == i => (start, start),
            _ => (1, STARTS),
        };
        let mut least = i128::MAX;
        for start in first..=last {
            least = least.min(share(shares, j, start));
        }
        sum = sum.saturating_add(least);
    }
    sum
}

/// The instance, where the mean alone costs.
fn instance_text(alloc: Global) -> Result<String, AllocError> {
    let mut text = String::from_str(
        alloc,
        r#"{"Resources":{},"Seasons":{},"Exclusions":{},"Quantile":1,"Alpha":1,"T":50,"Scenarios_number":[1"#,
    )?;
    for _ in 1..STARTS {
        text.push_str(",1")?;
    }
    text.push_str(r#"],"Interventions":{"#)?;
    for i in 1..=INTERVENTIONS {
        text.push_str(if i == 1 { "\n" } else { ",\n" })?;
        text.push_str(format!(in alloc;
            "\"I{i}\":{{\"tmax\":50,\"workload\":{{}},\"Delta\":[1"
        )?.as_str())?;
        for _ in 1..STARTS {
            text.push_str(",1")?;
        }
        text.push_str(r#"],"risk":{"0":{}"#)?;
        for start in 1..=STARTS {
            let risk = risk(i, start);
            text.push_str(format!(in alloc; ",\"{start}\":{{\"{start}\":[{risk}]}}")?.as_str())?;
        }
        text.push_str("}}")?;
    }
    text.push_str("}}")?;
    Ok(text)
}

/// The certificate of a bound: each start of each intervention by itself, and the rest at the end.
pub fn certificate_text(alloc: Global, bound: i128) -> Result<String, AllocError> {
    let mut text = format!(in alloc; "mpcert 1\nbound {bound}\nlists 0\ntree\n")?;
    for i in 1..=INTERVENTIONS {
        for start in 1..STARTS {
            text.push_str(format!(in alloc; "split {i} {start}\ncost 0\n")?.as_str())?;
        }
    }
    text.push_str("cost 0\n")?;
    Ok(text)
}

/// What is due for a bound: the first leaf whose box has a lower sum.
pub fn due(shares: &[i128], bound: i128) -> Audit {
    let mut n = 0u64;
    for i in 1..=INTERVENTIONS {
        for start in 1..STARTS {
            n = n.saturating_add(1);
            if least(shares, i, start) < bound {
                return Audit::LeafFails { n };
            }
        }
    }
    n = n.saturating_add(1);
    if least(shares, INTERVENTIONS, STARTS) < bound {
        return Audit::LeafFails { n };
    }
    Audit::Proved(Bound::Least(bound))
}

/// What the deep tree comes to for a bound, on the instance of a text.
pub fn audit_bound(alloc: Global, whole: &str, bound: i128) -> Result<Audit, Fail> {
    let text = certificate_text(alloc, bound)?;
    Ok(audited(alloc, whole, text.as_bytes())??)
}

pub fn is_due(rt: &impl Abort, audit: Audit, due: Audit) {
    assert_eq!(rt; audit, due);
}

#[test]
fn a_deep_tree_is_audited_as_its_boxes_made_afresh(rt: HostRuntime) -> Result<(), Fail> {
    let whole = instance_text(rt.alloc())?;
    let shares = shares(rt.alloc())?;
    for k in 0..26u64 {
        let bound = i128::from(209 + 40 * k).saturating_mul(ONE);
        is_due(
            &rt,
            audit_bound(rt.alloc(), whole.as_str(), bound)?,
            due(shares.as_slice(), bound),
        );
    }
    Ok(())
}
