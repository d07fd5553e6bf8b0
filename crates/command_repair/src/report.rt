//! The texts of reports.
ghost use Rattle.std.specs.Prelude.{◌≡◌, ◌≤◌, ◌^◌, ◌++◌, IfOk, OnOk, unsigned_abs};
ghost use Rattle.command_repair.specs.Repairing.{counts_text, nothing_report, none_report};
ghost use Rattle.command_repair.specs.Made.{repaired_text};

use branch_search::split_count;
use certificate_text::{Bound, Certificate};
use command_answers::push_least;
use command_frame::{Text, push_numbered, push_rounded};
use instance_model::Instance;
use std::alloc::{AllocError, Global};

/// The report on a plan that was found, with so many changes.
pub(crate) fn repaired_text(
    alloc: Global,
    inst: &Instance,
    changed: u64,
    bound: i128,
    certificate: &Certificate,
) -> Result<Text, AllocError>
    requires bound { unsigned_abs bound ≤ 10 ^ 36 }
    ensures { IfOk result (λ text. text ≡ repaired_text inst.now changed bound certificate.now) }
{
    let mut text = Text::new(alloc);
    text.push("plan repaired\n")?;
    push_numbered(&mut text, "changed ", changed)?;
    push_least(&mut text, Bound::Least(bound))?;
    push_counts(&mut text, inst, certificate)?;
    Ok(text)
}

/// The report where none was found.
pub(crate) fn nothing_text(
    alloc: Global,
    inst: &Instance,
    bound: i128,
    certificate: &Certificate,
) -> Result<Text, AllocError>
    requires bound { unsigned_abs bound ≤ 10 ^ 36 }
    ensures { IfOk result (λ text. text ≡ nothing_report inst.now bound certificate.now) }
{
    let mut text = Text::new(alloc);
    text.push("nothing found\n")?;
    push_least(&mut text, Bound::Least(bound))?;
    push_counts(&mut text, inst, certificate)?;
    Ok(text)
}

/// The report where there is none.
pub(crate) fn none_text(
    alloc: Global,
    inst: &Instance,
    certificate: &Certificate,
) -> Result<Text, AllocError>
    ensures { IfOk result (λ text. text ≡ none_report inst.now certificate.now) }
{
    let mut text = Text::new(alloc);
    text.push("no plan exists\n")?;
    push_counts(&mut text, inst, certificate)?;
    Ok(text)
}

/// Adds the last lines of each report.
fn push_counts(
    text: &mut Text,
    inst: &Instance,
    certificate: &Certificate,
) -> Result<(), AllocError>
    ensures { OnOk result (text.new ≡ text.old ++ counts_text inst.now certificate.now) }
{
    push_numbered(text, "splits ", split_count(certificate.nodes.as_slice()))?;
    push_rounded(text, inst.rounded())
}
