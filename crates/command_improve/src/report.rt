//! The texts of reports.
ghost use Rattle.std.specs.Prelude.{◌≡◌, ◌<◌, ◌^◌, ◌++◌, IfOk, IfSome, OnOk, unsigned_abs};
ghost use Rattle.command_improve.specs.Improving.{before_line, violation_line, nothing_report, none_report};
ghost use Rattle.command_improve.specs.Made.{values_report};

use command_frame::{Text, push_numbered, push_ranges, push_rounded, push_score};
use instance_model::Instance;
use plan_score::Values;
use std::alloc::{AllocError, Global};

/// The report on a plan of these values, with the score of the plan before and the number of changes from it.
pub(crate) fn improved_text(
    alloc: Global,
    inst: &Instance,
    values: &Values,
    before: Option<i128>,
    changed: u64,
) -> Result<Text, AllocError>
    requires score { unsigned_abs values.now.score < 10 ^ 33 }
    requires before { IfSome before (λ score. unsigned_abs score < 10 ^ 33) }
    ensures { IfOk result (λ text. text ≡ values_report inst.now values.now before changed) }
{
    let mut text = Text::new(alloc);
    text.push("plan improved\n")?;
    push_score(&mut text, values.score)?;
    push_before(&mut text, before)?;
    push_numbered(&mut text, "changed ", changed)?;
    push_ranges(&mut text, values)?;
    push_rounded(&mut text, inst.rounded())?;
    Ok(text)
}

/// Adds the line of the score of the plan before.
fn push_before(text: &mut Text, before: Option<i128>) -> Result<(), AllocError>
    requires { IfSome before (λ score. unsigned_abs score < 10 ^ 33) }
    ensures { OnOk result (text.new ≡ text.old ++ before_line before) }
{
    match before {
        None => text.push("before none\n"),
        Some(score) => {
            text.push("before ")?;
            text.push_signed(score)?;
            text.push("\n")
        }
    }
}

/// The report where none was found: how far the last plan is from the rules.
pub(crate) fn nothing_text(
    alloc: Global,
    inst: &Instance,
    violation: i128,
) -> Result<Text, AllocError>
    ensures { IfOk result (λ text. text ≡ nothing_report inst.now violation) }
{
    let mut text = Text::new(alloc);
    text.push("nothing found\n")?;
    push_violation(&mut text, violation)?;
    push_rounded(&mut text, inst.rounded())?;
    Ok(text)
}

/// Adds the line of a violation, in counts of 10^-12.
fn push_violation(text: &mut Text, violation: i128) -> Result<(), AllocError>
    ensures { OnOk result (text.new ≡ text.old ++ violation_line violation) }
{
    text.push("violation ")?;
    text.push_signed(violation)?;
    text.push("\n")
}

/// The report where there is none.
pub(crate) fn none_text(alloc: Global, inst: &Instance) -> Result<Text, AllocError>
    ensures { IfOk result (λ text. text ≡ none_report inst.now) }
{
    let mut text = Text::new(alloc);
    text.push("no plan exists\n")?;
    push_rounded(&mut text, inst.rounded())?;
    Ok(text)
}
