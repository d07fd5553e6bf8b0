//! The text of a report is said.
ghost use Rattle.std.specs.Prelude.{◌≡◌, ◌<◌, length, map, All, ◌∷◌, []};
ghost use Rattle.std.specs.List.{flat_map};
ghost use Rattle.fixed_num.specs.Texts.{fixed_text};
ghost use Rattle.plan_desk.specs.Written.{SaysText};
ghost use Rattle.plan_table.specs.Texts.{words_behind, words_line, period_line, risk_line, state_word, load_text};
ghost use Rattle.plan_table.specs.Texts.{load_text_as, run_text, clash_text, head_text, report_text, NamesWithin};

use crate::report::{LoadLine, LoadState, PeriodReport, RunLine};
use fixed_num::Line;
use instance_model::Instance;
use plan_desk::{Desk, Failed, say_all, say_pieces};

/// Says the text of a report. Takes no memory.
pub fn say_report<D: Desk>(
    inst: &Instance,
    report: &PeriodReport,
    desk: &mut D,
) -> Result<(), Failed>
    requires { NamesWithin inst.now report.now }
    ensures { SaysText (report_text inst.now report.now) (D.shows desk.old) (D.shows desk.new) result }
{
    say_head(report, desk)?;
    say_loads(inst, report.loads.as_slice(), desk)?;
    say_runs(inst, report.runs.as_slice(), desk)?;
    say_clashes(inst, report.clashes.as_slice(), desk)
}

/// Says the lines on the scenario sums.
fn say_head<D: Desk>(report: &PeriodReport, desk: &mut D) -> Result<(), Failed>
    ensures { SaysText (head_text report.now) (D.shows desk.old) (D.shows desk.new) result }
{
    say_period(report, desk)?;
    say_risk(report, desk)?;
    say_range(b"mean", report.mean_low, report.mean_high, desk)?;
    say_range(b"excess", report.excess_low, report.excess_high, desk)
}

fn say_period<D: Desk>(report: &PeriodReport, desk: &mut D) -> Result<(), Failed>
    ensures { SaysText (period_line report.now) (D.shows desk.old) (D.shows desk.new) result }
{
    let t = Line::of_natural(u64::from(report.t));
    let scenarios = Line::of_natural(u64::from(report.scenarios));
    let rank = Line::of_natural(u64::from(report.rank));
    say_words(
        b"period",
        &[
            t.bytes(),
            b"scenarios",
            scenarios.bytes(),
            b"rank",
            rank.bytes(),
        ],
        desk,
    )
}

#[tactic(auto, unfolding(crate::specs::Texts::risk_line))]
fn say_risk<D: Desk>(report: &PeriodReport, desk: &mut D) -> Result<(), Failed>
    ensures { SaysText (risk_line report.now) (D.shows desk.old) (D.shows desk.new) result }
{
    let least = Line::of_fixed(report.least);
    let quantile = Line::of_fixed(report.quantile);
    let greatest = Line::of_fixed(report.greatest);
    say_words(
        b"risk",
        &[least.bytes(), quantile.bytes(), greatest.bytes()],
        desk,
    )
}

/// Says two counts behind a word.
fn say_range<D: Desk>(word: &[u8], low: i128, high: i128, desk: &mut D) -> Result<(), Failed>
    ensures { SaysText (words_line word.now (fixed_text low ∷ fixed_text high ∷ []))
        (D.shows desk.old) (D.shows desk.new) result }
{
    let low = Line::of_fixed(low);
    let high = Line::of_fixed(high);
    say_words(word, &[low.bytes(), high.bytes()], desk)
}

fn say_loads<D: Desk>(inst: &Instance, loads: &[LoadLine], desk: &mut D) -> Result<(), Failed>
    requires { All (λ line. line.c < length inst.now.resource_names) loads.now }
    ensures { SaysText (flat_map (load_text inst.now) loads.now) (D.shows desk.old) (D.shows desk.new) result }
{
    for line in loads {
        say_load(inst, line, desk)?;
    }
    Ok(())
}

fn say_load<D: Desk>(inst: &Instance, line: &LoadLine, desk: &mut D) -> Result<(), Failed>
    requires { line.now.c < length inst.now.resource_names }
    ensures { SaysText (load_text inst.now line.now) (D.shows desk.old) (D.shows desk.new) result }
{
    say_load_as(inst, line, word_of(line.state).as_bytes(), desk)
}

/// Says a load with this word behind it.
fn say_load_as<D: Desk>(
    inst: &Instance,
    line: &LoadLine,
    state: &[u8],
    desk: &mut D,
) -> Result<(), Failed>
    requires { line.now.c < length inst.now.resource_names }
    ensures { SaysText (load_text_as inst.now line.now state.now) (D.shows desk.old) (D.shows desk.new) result }
{
    let name = inst.resource_name(line.c).as_bytes();
    let load = Line::of_fixed(line.load);
    let lower = Line::of_fixed(line.lower);
    let upper = Line::of_fixed(line.upper);
    say_words(
        b"load",
        &[name, load.bytes(), lower.bytes(), upper.bytes(), state],
        desk,
    )
}

fn word_of(state: LoadState) -> &'static str
    ensures { result.now ≡ state_word state }
{
    match state {
        LoadState::Fits => "fits",
        LoadState::Over => "over",
        LoadState::Under => "under",
    }
}

fn say_runs<D: Desk>(inst: &Instance, runs: &[RunLine], desk: &mut D) -> Result<(), Failed>
    requires { All (λ line. line.i < length inst.now.names) runs.now }
    ensures { SaysText (flat_map (run_text inst.now) runs.now) (D.shows desk.old) (D.shows desk.new) result }
{
    for line in runs {
        say_run(inst, line, desk)?;
    }
    Ok(())
}

fn say_run<D: Desk>(inst: &Instance, line: &RunLine, desk: &mut D) -> Result<(), Failed>
    requires { line.now.i < length inst.now.names }
    ensures { SaysText (run_text inst.now line.now) (D.shows desk.old) (D.shows desk.new) result }
{
    let name = inst.name(line.i).as_bytes();
    let start = Line::of_natural(u64::from(line.start));
    let day = Line::of_natural(u64::from(line.day));
    let duration = Line::of_natural(u64::from(line.duration));
    let low = Line::of_fixed(line.low);
    let high = Line::of_fixed(line.high);
    say_words(
        b"run",
        &[
            name,
            start.bytes(),
            day.bytes(),
            duration.bytes(),
            low.bytes(),
            high.bytes(),
        ],
        desk,
    )
}

fn say_clashes<D: Desk>(inst: &Instance, clashes: &[u32], desk: &mut D) -> Result<(), Failed>
    requires { All (λ e. e < length inst.now.exclusion_names) clashes.now }
    ensures { SaysText (flat_map (clash_text inst.now) clashes.now) (D.shows desk.old) (D.shows desk.new) result }
{
    for e in clashes {
        say_clash(inst, *e, desk)?;
    }
    Ok(())
}

fn say_clash<D: Desk>(inst: &Instance, e: u32, desk: &mut D) -> Result<(), Failed>
    requires { e < length inst.now.exclusion_names }
    ensures { SaysText (clash_text inst.now e) (D.shows desk.old) (D.shows desk.new) result }
{
    say_words(b"clash", &[inst.exclusion_name(e).as_bytes()], desk)
}

/// Says a line of words.
fn say_words<D: Desk>(first: &[u8], rest: &[&[u8]], desk: &mut D) -> Result<(), Failed>
    ensures { SaysText (words_line first.now (map (λ word. word.now) rest.now))
        (D.shows desk.old) (D.shows desk.new) result }
{
    say_all(desk, first)?;
    say_rest(rest, desk)?;
    say_all(desk, b"\n")
}

/// Says words, each behind a blank.
fn say_rest<D: Desk>(rest: &[&[u8]], desk: &mut D) -> Result<(), Failed>
    ensures { SaysText (words_behind (map (λ word. word.now) rest.now))
        (D.shows desk.old) (D.shows desk.new) result }
{
    for word in rest {
        say_pieces(desk, &[b" ", word])?;
    }
    Ok(())
}
