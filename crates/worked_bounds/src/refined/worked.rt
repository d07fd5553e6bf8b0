//! What drawn lists come to, beside the plain formulas, and what they bound, with every plan tried.
ghost use Rattle.std.specs.Prelude.{IfOk};
ghost use Rattle.refined_prices.specs.RefinedLists.{IsRefinedList};
ghost use Rattle.refined_check.specs.certificate.Ranges.{IsRefinedInRange};

use crate::refined::cases::{CASES, Case, LISTS};
use crate::samples::instance;
use instance_model::Instance;
use plan_score::{Verdict, judge};
use refined_check::{CertVerdict, RefinedCertificate, check_refined};
use refined_prices::{RefinedPrices, is_refined_list, refined_rows};
use refined_text::read_refined_certificate;
use std::alloc::{AllocError, Global};
use std::process::Abort;
use std::test::Fail;

/// The certificate of these lists with a bound and one leaf over all starts, which names a list.
fn certificate_of(
    alloc: Global,
    inst: &Instance,
    lists: &str,
    bound: i128,
    number: usize,
) -> Result<RefinedCertificate, Fail>
    ensures { IfOk result (IsRefinedInRange inst.now) }
{
    let text = format!(in alloc;
        "mpcert 3\nbound {bound}\nlists {LISTS}\n{lists}tree\ncost {number}\n"
    )?;
    Ok(read_refined_certificate(alloc, inst, text.as_bytes())?)
}

/// Writes the prices of starts behind a text, and `-` where one isn't allowed.
fn push_row(alloc: Global, row: &[Option<i128>], text: &mut String) -> Result<(), AllocError> {
    let mut before = "";
    for entry in row {
        text.push_str(before)?;
        match entry {
            Some(price) => text.push_str(format!(in alloc; "{price}")?.as_str())?,
            None => text.push_str("-")?,
        }
        before = " ";
    }
    text.push_str("\n")
}

/// Writes the table of a list behind a text.
fn push_table(
    alloc: Global,
    inst: &Instance,
    list: &RefinedPrices,
    text: &mut String,
) -> Result<(), AllocError>
    requires { IsRefinedList inst.now list.now }
{
    let (rows, constant) = refined_rows(alloc, inst, list)?;
    for row in &rows {
        push_row(alloc, row.as_slice(), text)?;
    }
    text.push_str(format!(in alloc; "{constant}\n")?.as_str())
}

/// The tables of the lists of a certificate are these.
fn are_tables(
    rt: &impl Abort,
    alloc: Global,
    inst: &Instance,
    cert: &RefinedCertificate,
    wanted: &str,
) -> Result<(), AllocError>
    requires { IsRefinedInRange inst.now cert.now }
{
    let mut text = String::new(alloc);
    for list in cert.lists.as_slice() {
        assert!(rt; is_refined_list(alloc, inst, list)?);
        push_table(alloc, inst, list, &mut text)?;
    }
    assert_eq!(rt; text.as_str(), wanted);
    Ok(())
}

/// The starts of a plan by its number below 64.
fn starts_at(number: u32) -> [u32; 3] {
    [number % 4 + 1, number / 4 % 4 + 1, number / 16 % 4 + 1]
}

/// The score of a plan, where it keeps the rules.
fn score_of(alloc: Global, inst: &Instance, starts: [u32; 3]) -> Result<Option<i128>, AllocError> {
    if inst.interventions() != 3 {
        return Ok(None);
    }
    let [first, second, third] = starts;
    match judge(alloc, inst, &[Some(first), Some(second), Some(third)])? {
        Verdict::Feasible(values) => Ok(Some(values.score)),
        Verdict::Broken(_) => Ok(None),
    }
}

/// The prices of these starts and a constant, together.
fn sum_at(rows: &[Vec<Option<i128>>], constant: i128, starts: [u32; 3]) -> Option<i128> {
    let mut sum = constant;
    for (row, start) in rows.iter().zip(starts.iter()) {
        let price = *row.get(start.saturating_sub(1) as usize)?;
        sum = sum.saturating_add(price?);
    }
    Some(sum)
}

/// Over no plan that keeps the rules the prices by a list and its constant come to more than the score.
fn is_lawful(
    rt: &impl Abort,
    alloc: Global,
    inst: &Instance,
    list: &RefinedPrices,
) -> Result<(), AllocError>
    requires { IsRefinedList inst.now list.now }
{
    let (rows, constant) = refined_rows(alloc, inst, list)?;
    for number in 0..64 {
        let starts = starts_at(number);
        if let Some(score) = score_of(alloc, inst, starts)? {
            let sum = sum_at(rows.as_slice(), constant, starts);
            assert!(rt;
                sum.is_some_and(|sum| sum <= score),
                "{starts:?}: {sum:?} {score}"
            );
        }
    }
    Ok(())
}

/// So it is by each list of a certificate.
fn are_lawful(
    rt: &impl Abort,
    alloc: Global,
    inst: &Instance,
    cert: &RefinedCertificate,
) -> Result<(), AllocError>
    requires { IsRefinedInRange inst.now cert.now }
{
    for list in cert.lists.as_slice() {
        is_lawful(rt, alloc, inst, list)?;
    }
    Ok(())
}

/// The least score of a plan that keeps the rules.
fn least_score(alloc: Global, inst: &Instance) -> Result<Option<i128>, AllocError> {
    let mut least: Option<i128> = None;
    for number in 0..64 {
        if let Some(score) = score_of(alloc, inst, starts_at(number))? {
            least = Some(least.map_or(score, |other| other.min(score)));
        }
    }
    Ok(least)
}

/// The verdict on the certificate of these lists with a bound, by a list.
fn verdict_of(
    alloc: Global,
    inst: &Instance,
    lists: &str,
    bound: i128,
    number: usize,
) -> Result<CertVerdict, Fail> {
    let cert = certificate_of(alloc, inst, lists, bound, number)?;
    Ok(check_refined(alloc, inst, &cert)?)
}

/// The worth of the box of all starts by each list is accepted, and no more is; and no plan scores below it.
fn are_worths(rt: &impl Abort, alloc: Global, inst: &Instance, case: &Case) -> Result<(), Fail> {
    let mut number: usize = 0;
    for worth in case.worths {
        number = number.saturating_add(1);
        let accepted = verdict_of(alloc, inst, case.lists, worth, number)?;
        let refused = verdict_of(alloc, inst, case.lists, worth.saturating_add(1), number)?;
        assert_eq!(rt; accepted, CertVerdict::Valid, "{number} {worth}");
        assert_eq!(rt;
            refused,
            CertVerdict::LeafFails { n: 1 },
            "{number} {worth}"
        );
        assert!(rt; worth <= case.least, "{number} {worth}");
    }
    Ok(())
}

/// A case is as it says.
fn is_worked(rt: &impl Abort, alloc: Global, case: &Case) -> Result<(), Fail> {
    let inst = instance(alloc, case.instance)?;
    let cert = certificate_of(alloc, &inst, case.lists, 0, 1)?;
    assert_eq!(rt; least_score(alloc, &inst)?, Some(case.least));
    are_tables(rt, alloc, &inst, &cert, case.tables)?;
    are_lawful(rt, alloc, &inst, &cert)?;
    are_worths(rt, alloc, &inst, case)
}

#[test]
fn lists_come_to_what_plain_formulas_say(rt: HostRuntime) -> Result<(), Fail> {
    for case in &CASES {
        is_worked(&rt, rt.alloc(), case)?;
    }
    Ok(())
}
