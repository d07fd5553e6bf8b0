//! The same tree on a drawn instance, with its shares of the score summed from its risks.

ghost use Rattle.std.specs.Prelude.{◌≡◌, ◌<◌, ◌≤◌, length, IsTrue};
ghost use Rattle.instance_model.specs.Tables.{is_allowed, in_run};

use crate::certificates::deep::{STARTS, audit_bound, certificate_text, due, is_due, least};
use crate::certificates::given::{fails_at, is_proved};
use crate::certificates::written::is_rewritten;
use crate::{Audit, audit_text};
use certificate_text::Bound;
use duration_calendar::{in_run, run};
use fixed_num::Steps;
use instance_gen::{drawn_instance, generate};
use instance_model::Instance;
use std::alloc::{AllocError, Global};
use std::marker::Brand;
use std::sync::ledger::{Blank, Ledger};
use std::test::Fail;

/// The least number that a bound may have.
const LEAST: i128 = -1_000_000_000_000_000_000_000_000_000_000_000_000;

/// The text of the instance of 20 interventions that the number 7 draws.
fn instance_text(alloc: Global) -> Result<String, AllocError> {
    Ok(generate(alloc, 7, 20)?.into_string())
}

/// What each start of each intervention adds to a score by its mean.
fn shares(alloc: Global) -> Result<Vec<i128>, AllocError> {
    let inst = drawn_instance(alloc, 7, 20)?;
    shares_on::<Brand>(alloc, &inst, Blank::new(1))
}

/// Those of an instance, summed on a new ledger.
fn shares_on<L: Ledger>(
    alloc: Global,
    inst: &Instance,
    blank: Blank,
) -> Result<Vec<i128>, AllocError>
    requires name { blank.name ≡ L.name }
    requires parts { blank.parts ≡ L.parts }
    requires some { 0 < blank.parts }
{
    let mut steps: Steps<L> = Steps::zero(blank);
    let mut shares = Vec::new(alloc);
    for i in 0..inst.interventions() {
        for k in 0..inst.tmax(i) {
            shares.push(share(inst, i, k + 1, &mut steps))?;
        }
    }
    Ok(shares)
}

/// What one start adds: its parts in the periods of its run.
fn share<L: Ledger>(inst: &Instance, i: u32, s: u32, steps: &mut Steps<L>) -> i128
    requires number { i < length inst.now.names }
{
    if !inst.allowed(i, s) {
        return 0;
    }
    let window = run(inst, i, s);
    let mut sum = 0i128;
    for t in 1..=inst.periods() {
        if in_run(window, t) {
            sum = sum.saturating_add(share_in(inst, i, s, t, steps));
        }
    }
    sum
}

/// Alpha times the mean of the risks in a period.
fn share_in<L: Ledger>(inst: &Instance, i: u32, s: u32, t: u32, steps: &mut Steps<L>) -> i128
    requires number { i < length inst.now.names }
    requires allowed { IsTrue (is_allowed inst.now i s) }
    requires running { IsTrue (in_run inst.now i s t) }
    requires from { 1 ≤ t }
    requires to { t ≤ inst.now.periods }
{
    let mut total = 0i128;
    let risks = inst.risks(i, s, t, steps);
    for k in 0..risks.len() {
        total = total.saturating_add(risks.at(k).count());
    }
    let weighed = total.saturating_mul(i128::from(inst.alpha()));
    weighed.div_euclid(i128::from(inst.scenarios(t)))
}

/// What the deep tree comes to for each of these bounds. The instance is drawn once, and not read from its text.
fn audits(alloc: Global, bounds: &[i128]) -> Result<Vec<Audit>, Fail> {
    let inst = drawn_instance(alloc, 7, 20)?;
    audits_of(alloc, &inst, bounds)
}

fn audits_of(alloc: Global, inst: &Instance, bounds: &[i128]) -> Result<Vec<Audit>, Fail> {
    let mut audits = Vec::new(alloc);
    for bound in bounds {
        audits.push(audit_of(alloc, inst, *bound)?)?;
    }
    Ok(audits)
}

fn audit_of(alloc: Global, inst: &Instance, bound: i128) -> Result<Audit, Fail> {
    let text = certificate_text(alloc, bound)?;
    Ok(audit_text(alloc, inst, text.as_bytes())?)
}

/// The worth of each leaf at a start of the first intervention, and the number above it. No leaf behind them is the
/// first that fails: the first intervention adds least at one of these starts, so no box has a lower worth.
fn edges(alloc: Global, shares: &[i128]) -> Result<Vec<i128>, AllocError> {
    let mut edges = Vec::new(alloc);
    for start in 1..STARTS {
        let worth = least(shares, 1, start);
        edges.push(worth)?;
        edges.push(worth.saturating_add(1))?;
    }
    Ok(edges)
}

#[test]
fn a_deep_tree_of_a_drawn_instance_is_audited_as_its_boxes(rt: HostRuntime) -> Result<(), Fail> {
    let shares = shares(rt.alloc())?;
    let bounds = edges(rt.alloc(), shares.as_slice())?;
    let audits = audits(rt.alloc(), bounds.as_slice())?;
    for (audit, bound) in audits.iter().zip(bounds.iter()) {
        is_due(&rt, *audit, due(shares.as_slice(), *bound));
    }
    Ok(())
}

/// What a risk of 1 in one of eight scenarios adds to a score, where alpha is a half.
const RISK: i128 = 62_500_000_000_000_000;

/// For a sum of risks the first leaf whose box has no greater one. They were found by a program in another language
/// over the text that `tools/plain_drawn.py` draws.
const LOWEST: [(i128, u64); 8] = [
    (5740, 1),
    (5425, 4),
    (5391, 7),
    (5377, 8),
    (5354, 18),
    (5318, 33),
    (5287, 43),
    (5227, 49),
];

#[test]
fn leaves_fail_where_another_program_says_so(rt: HostRuntime) -> Result<(), Fail> {
    for (risks, n) in LOWEST {
        let bound = risks.saturating_mul(RISK).saturating_add(1);
        for audit in audits(rt.alloc(), &[bound])? {
            fails_at(&rt, audit, n);
        }
    }
    Ok(())
}

#[test]
fn a_deep_tree_proves_the_least_bound(rt: HostRuntime) -> Result<(), Fail> {
    let whole = instance_text(rt.alloc())?;
    let audit = audit_bound(rt.alloc(), whole.as_str(), LEAST)?;
    is_proved(&rt, audit, Bound::Least(LEAST));
    Ok(())
}

#[test]
fn a_deep_tree_is_read_and_written(rt: HostRuntime) -> Result<(), Fail> {
    let alloc = rt.alloc();
    let whole = instance_text(alloc)?;
    let text = certificate_text(alloc, LEAST)?;
    is_rewritten(&rt, alloc, whole.as_str(), text.as_str())
}
