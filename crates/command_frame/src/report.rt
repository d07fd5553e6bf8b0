//! The reports on plans.
ghost use Rattle.std.specs.Prelude.{◌≡◌, ◌<◌, ◌≤◌, ◌^◌, ◌++◌, Option, Some, IfOk, IfSome, OnOk, codes, unsigned_abs};
ghost use Rattle.certificate_tree.specs.Ranges.{IsBoundInRange};
ghost use Rattle.command_frame.specs.Reports.{values_report, infeasible_report, score_line, ranges_text, range_line};
ghost use Rattle.command_frame.specs.Reports.{rounded_line, numbered, band_text, rule_text, pair_text, NamesOf};
ghost use Rattle.command_frame.specs.Reports.{bound_line, fixed_line, cost_line, bound_lines, bound_text, bound_cost};
ghost use Rattle.command_frame.specs.Reports.{bound_or_none_line, gap_line, score_and_gap, gap_text, accepted_text};

use crate::text::Text;
use certificate_text::Bound;
use fixed_num::floor_div;
use instance_model::Instance;
use plan_score::{Rule, Values};
use std::alloc::{AllocError, Global};

/// What is said of the files of a command, and with which status.
#[derive(Drop)]
pub struct Report {
    pub status: u8,
    pub text: Text,
}

/// The report on a feasible plan with these values.
pub fn feasible_text(alloc: Global, inst: &Instance, values: &Values) -> Result<Text, AllocError>
    ensures { IfOk result (λ text. text ≡ values_report inst.now.rounded values.now) }
{
    let mut text = Text::new(alloc);
    text.push("feasible\n")?;
    push_score(&mut text, values.score)?;
    push_ranges(&mut text, values)?;
    push_rounded(&mut text, inst.rounded())?;
    Ok(text)
}

/// The report on a plan that breaks this rule first.
pub fn infeasible_text(alloc: Global, inst: &Instance, rule: &Rule) -> Result<Text, AllocError>
    requires { NamesOf inst.now rule.now }
    ensures { IfOk result (λ text. text ≡ infeasible_report inst.now rule.now) }
{
    let mut text = Text::new(alloc);
    text.push("infeasible\n")?;
    push_rule(&mut text, inst, rule)?;
    text.push("\n")?;
    push_rounded(&mut text, inst.rounded())?;
    Ok(text)
}

/// The report on an accepted certificate with this bound, and on a plan of this score, if one was given.
pub fn accepted_text(
    alloc: Global,
    inst: &Instance,
    bound: Bound,
    score: Option<i128>,
) -> Result<Text, AllocError>
    requires bound { IsBoundInRange bound }
    requires score { IfSome score (λ z. unsigned_abs z < 10 ^ 36) }
    ensures { IfOk result (λ text. text ≡ accepted_text inst.now bound score) }
{
    let mut text = Text::new(alloc);
    text.push("accepted\n")?;
    push_bound(&mut text, inst, bound)?;
    push_gap(&mut text, bound, score)?;
    push_rounded(&mut text, inst.rounded())?;
    Ok(text)
}

fn push_bound(text: &mut Text, inst: &Instance, bound: Bound) -> Result<(), AllocError>
    requires bound { IsBoundInRange bound }
    ensures { OnOk result (text.new ≡ text.old ++ bound_text inst.now bound) }
{
    match bound {
        Bound::NoPlan => text.push("bound none\n"),
        Bound::Least(least) => push_least(text, least, cost_of(inst, least)),
    }
}

/// A bound on scores as a bound on the cost, in counts of 10^-12, rounded down.
fn cost_of(inst: &Instance, least: i128) -> i128
    requires { unsigned_abs least ≤ 10 ^ 36 }
    ensures { result ≡ bound_cost inst.now least }
{
    floor_div(least, i128::from(inst.periods()) * 1_000_000)
}

/// Adds the lines of a bound that is a number.
fn push_least(text: &mut Text, least: i128, cost: i128) -> Result<(), AllocError>
    ensures { OnOk result (text.new ≡ text.old ++ bound_lines least cost) }
{
    push_bound_line(text, least)?;
    push_cost_line(text, cost)
}

/// Adds the line of a bound in parts of 10^-18.
pub fn push_bound_line(text: &mut Text, least: i128) -> Result<(), AllocError>
    ensures { OnOk result (text.new ≡ text.old ++ bound_line least) }
{
    text.push("bound ")?;
    text.push_signed(least)?;
    text.push("\n")
}

/// Adds the same line of a bound that may be none.
pub fn push_bound_or_none(text: &mut Text, bound: Bound) -> Result<(), AllocError>
    ensures { OnOk result (text.new ≡ text.old ++ bound_or_none_line bound) }
{
    match bound {
        Bound::NoPlan => text.push("bound none\n"),
        Bound::Least(least) => push_bound_line(text, least),
    }
}

fn push_cost_line(text: &mut Text, cost: i128) -> Result<(), AllocError>
    ensures { OnOk result (text.new ≡ text.old ++ cost_line cost) }
{
    push_fixed_line(text, "bound-cost ", cost)
}

/// Adds a count of 10^-12 behind a word.
fn push_fixed_line(text: &mut Text, word: &str, n: i128) -> Result<(), AllocError>
    ensures { OnOk result (text.new ≡ text.old ++ fixed_line word.now n) }
{
    text.push(word)?;
    text.push_fixed(n)?;
    text.push("\n")
}

/// Adds the score of a plan that was given, and how far it is above the bound.
pub fn push_gap(text: &mut Text, bound: Bound, score: Option<i128>) -> Result<(), AllocError>
    requires bound { IsBoundInRange bound }
    requires score { IfSome score (λ z. unsigned_abs z < 10 ^ 36) }
    ensures { OnOk result (text.new ≡ text.old ++ gap_text bound score) }
{
    match (bound, score) {
        (Bound::Least(least), Some(score)) => push_score_and_gap(text, score, score - least),
        _ => Ok(()),
    }
}

fn push_score_and_gap(text: &mut Text, score: i128, gap: i128) -> Result<(), AllocError>
    ensures { OnOk result (text.new ≡ text.old ++ score_and_gap score gap) }
{
    push_score(text, score)?;
    push_gap_line(text, gap)
}

/// Adds the line that says how far a score is above a bound, in parts of 10^-18.
pub fn push_gap_line(text: &mut Text, gap: i128) -> Result<(), AllocError>
    ensures { OnOk result (text.new ≡ text.old ++ gap_line gap) }
{
    text.push("gap ")?;
    text.push_signed(gap)?;
    text.push("\n")
}

/// Adds the line of a score, in parts of 10^-18.
pub fn push_score(text: &mut Text, score: i128) -> Result<(), AllocError>
    ensures { OnOk result (text.new ≡ text.old ++ score_line score) }
{
    text.push("score ")?;
    text.push_signed(score)?;
    text.push("\n")
}

/// Adds the lines of the cost, the mean and the excess.
pub fn push_ranges(text: &mut Text, values: &Values) -> Result<(), AllocError>
    ensures { OnOk result (text.new ≡ text.old ++ ranges_text values.now) }
{
    push_cost(text, values)?;
    push_mean(text, values)?;
    push_excess(text, values)
}

fn push_cost(text: &mut Text, values: &Values) -> Result<(), AllocError>
    ensures { OnOk result (text.new ≡ text.old ++ range_line (codes "cost") values.now.cost_low values.now.cost_high) }
{
    push_range(text, "cost", values.cost_low, values.cost_high)
}

fn push_mean(text: &mut Text, values: &Values) -> Result<(), AllocError>
    ensures { OnOk result (text.new ≡ text.old ++ range_line (codes "mean") values.now.mean_low values.now.mean_high) }
{
    push_range(text, "mean", values.mean_low, values.mean_high)
}

fn push_excess(text: &mut Text, values: &Values) -> Result<(), AllocError>
    ensures { OnOk result
        (text.new ≡ text.old ++ range_line (codes "excess") values.now.excess_low values.now.excess_high) }
{
    push_range(text, "excess", values.excess_low, values.excess_high)
}

fn push_range(text: &mut Text, word: &str, low: i128, high: i128) -> Result<(), AllocError>
    ensures { OnOk result (text.new ≡ text.old ++ range_line word.now low high) }
{
    text.push(word)?;
    push_pair(text, low, high)?;
    text.push("\n")
}

/// Adds the line that says how many numbers of the instance file were changed by rounding.
pub fn push_rounded(text: &mut Text, rounded: u64) -> Result<(), AllocError>
    ensures { OnOk result (text.new ≡ text.old ++ rounded_line rounded) }
{
    text.push("rounded ")?;
    text.push_number(rounded)?;
    text.push("\n")
}

fn push_rule(text: &mut Text, inst: &Instance, rule: &Rule) -> Result<(), AllocError>
    requires { NamesOf inst.now rule.now }
    ensures { OnOk result (text.new ≡ text.old ++ rule_text inst.now rule.now) }
{
    match *rule {
        Rule::Unscheduled { i } => {
            text.push("S1 ")?;
            text.push(inst.name(i))
        }
        Rule::Outside { i, s } => push_numbered(text, "S2 ", inst.name(i), s),
        Rule::Past { i, s } => push_numbered(text, "S3 ", inst.name(i), s),
        Rule::Over { c, t, load, limit } => {
            push_band(text, "B1 ", inst.resource_name(c), t, load, limit)
        }
        Rule::Under { c, t, load, limit } => {
            push_band(text, "B2 ", inst.resource_name(c), t, load, limit)
        }
        Rule::Clash { e, t } => push_numbered(text, "X1 ", inst.exclusion_name(e), t),
    }
}

/// Adds a rule's code, a name and a number.
fn push_numbered(text: &mut Text, code: &str, name: &str, n: u32) -> Result<(), AllocError>
    ensures { OnOk result (text.new ≡ text.old ++ numbered code.now name.now n) }
{
    text.push(code)?;
    text.push(name)?;
    text.push(" ")?;
    text.push_number(n.into())
}

/// Adds a rule's code, a resource and a period, and the load there with its limit.
fn push_band(
    text: &mut Text,
    code: &str,
    name: &str,
    t: u32,
    load: i128,
    limit: i128,
) -> Result<(), AllocError>
    ensures { OnOk result (text.new ≡ text.old ++ band_text code.now name.now t load limit) }
{
    push_numbered(text, code, name, t)?;
    push_pair(text, load, limit)
}

/// Adds two counts of 10^-12.
fn push_pair(text: &mut Text, first: i128, second: i128) -> Result<(), AllocError>
    ensures { OnOk result (text.new ≡ text.old ++ pair_text first second) }
{
    text.push(" ")?;
    text.push_fixed(first)?;
    text.push(" ")?;
    text.push_fixed(second)
}
