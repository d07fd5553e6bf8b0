//! The texts that `roll` says.
ghost use Rattle.std.specs.Prelude.{◌≡◌, not, count_by, IfOk};
ghost use Rattle.plan_roll.specs.Rolled.{is_kept as is_kept_of};
ghost use Rattle.command_roll.specs.Rolling.{rolled_report};

use command_frame::{Text, push_numbered, push_rounded};
use instance_model::Instance;
use std::alloc::{AllocError, Global};

/// Whether a start is kept: one before `period` is.
#[tactic(auto, unfolding(plan_roll::specs::Rolled::is_kept))]
fn is_kept(period: u32, start: Option<u32>) -> bool
    ensures { result ≡ is_kept_of period start }
{
    match start {
        Some(s) => s < period,
        None => false,
    }
}

/// How many interventions are kept.
fn kept_count(plan: &[Option<u32>], period: u32) -> usize
    ensures { result ≡ count_by (is_kept_of period) plan.now }
{
    plan.iter().filter(|start| is_kept(period, **start)).count()
}

/// How many are free.
fn free_count(plan: &[Option<u32>], period: u32) -> usize
    ensures { result ≡ count_by (λ o. not (is_kept_of period o)) plan.now }
{
    plan.iter()
        .filter(|start| !is_kept(period, **start))
        .count()
}

/// The report on the rolled instance.
pub(crate) fn rolled_text(
    alloc: Global,
    inst: &Instance,
    plan: &[Option<u32>],
    period: u32,
) -> Result<Text, AllocError>
    ensures { IfOk result (λ text. text ≡ rolled_report inst.now plan.now period) }
{
    let mut text = Text::new(alloc);
    text.push("rolled\n")?;
    push_numbered(&mut text, "kept ", kept_count(plan, period) as u64)?;
    push_numbered(&mut text, "free ", free_count(plan, period) as u64)?;
    push_rounded(&mut text, inst.rounded())?;
    Ok(text)
}
