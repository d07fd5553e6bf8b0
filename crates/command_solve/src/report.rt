//! The texts of reports.
ghost use Rattle.std.specs.Prelude.{◌≡◌, ◌≤◌, ◌<◌, ◌^◌, ◌++◌, IfOk, OnOk, unsigned_abs};
ghost use Rattle.command_solve.specs.Solving.{counts_text, nothing_report, none_report};
ghost use Rattle.command_solve.specs.Made.{values_report};

use branch_search::split_count;
use certificate_text::Certificate;
use command_frame::{
    Text, push_bound_line, push_gap_line, push_numbered, push_ranges, push_rounded, push_score,
};
use instance_model::Instance;
use plan_moves::Moves;
use plan_score::Values;
use std::alloc::{AllocError, Global};

/// The report on a plan that was found, by its values.
pub(crate) fn found_text(
    alloc: Global,
    inst: &Instance,
    values: &Values,
    bound: i128,
    certificate: &Certificate,
    moves: &Moves,
) -> Result<Text, AllocError>
    requires score { unsigned_abs values.now.score < 10 ^ 36 }
    requires bound { unsigned_abs bound ≤ 10 ^ 36 }
    ensures { IfOk result (λ text. text ≡ values_report inst.now values.now bound certificate.now moves.now) }
{
    let mut text = Text::new(alloc);
    text.push("plan found\n")?;
    push_score(&mut text, values.score)?;
    push_bound_line(&mut text, bound)?;
    push_gap_line(&mut text, values.score - bound)?;
    push_ranges(&mut text, values)?;
    push_counts(&mut text, inst, certificate, moves)?;
    Ok(text)
}

/// The report where none was found.
pub(crate) fn nothing_text(
    alloc: Global,
    inst: &Instance,
    bound: i128,
    certificate: &Certificate,
    moves: &Moves,
) -> Result<Text, AllocError>
    ensures { IfOk result (λ text. text ≡ nothing_report inst.now bound certificate.now moves.now) }
{
    let mut text = Text::new(alloc);
    text.push("nothing found\n")?;
    push_bound_line(&mut text, bound)?;
    push_counts(&mut text, inst, certificate, moves)?;
    Ok(text)
}

/// The report where there is none.
pub(crate) fn none_text(
    alloc: Global,
    inst: &Instance,
    certificate: &Certificate,
    moves: &Moves,
) -> Result<Text, AllocError>
    ensures { IfOk result (λ text. text ≡ none_report inst.now certificate.now moves.now) }
{
    let mut text = Text::new(alloc);
    text.push("no plan exists\n")?;
    push_counts(&mut text, inst, certificate, moves)?;
    Ok(text)
}

/// Adds the last lines of each report.
fn push_counts(
    text: &mut Text,
    inst: &Instance,
    certificate: &Certificate,
    moves: &Moves,
) -> Result<(), AllocError>
    ensures { OnOk result (text.new ≡ text.old ++ counts_text inst.now certificate.now moves.now) }
{
    push_numbered(text, "splits ", split_count(certificate.nodes.as_slice()))?;
    push_numbered(text, "moves ", moves.as_slice().len() as u64)?;
    push_rounded(text, inst.rounded())
}
