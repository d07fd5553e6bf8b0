//! What is drawn: durations, loads and risks, in the order of the words.

ghost use Rattle.std.specs.Prelude.{◌≡◌, ℕ, ◌+◌, ◌<◌, [], slice_index, length, IfOk, OnOk};
ghost use Rattle.instance_gen.specs.Drawing.{draw, whole, with_durations, with_first_load, with_second_load, with_risk};
ghost use Rattle.instance_gen.specs.Drawing.{with_risks, with_period, with_run, with_starts, with_intervention};
ghost use Rattle.instance_gen.specs.Drawing.{interventions_of};

use fixed_num::Fixed;
use instance_model::LoadCell;
use rand_core::SeedableRng;
use rand_core::utils::NextWord;
use rand_pcg::Pcg32;
use std::alloc::{AllocError, Global};
use std::marker::Model;

/// How many starts each intervention has.
const STARTS: u32 = 50;

/// How many scenarios each period has.
pub const SCENARIOS: u32 = 8;

/// The next word modulo `m`.
fn draw(source: &mut Pcg32, m: u32) -> u32
    requires { 0 < m }
    ensures drawn { (result, source.new) ≡ draw m source.old }
    ensures below { result < m }
{
    source.next_word() % m
}

/// A whole number below 1,000 as a count of 10^-12.
pub fn whole(n: u32) -> Fixed
    requires { n < 1000 }
    ensures { result ≡ whole n }
{
    Fixed::from(n as u64 * 1_000_000_000_000)
}

/// The durations of an intervention, by start.
fn durations(alloc: Global, source: &mut Pcg32) -> Result<Vec<u32>, AllocError>
    ensures drawn { IfOk result (λ durations. record { source = source.new; durations = durations.items }
        ≡ with_durations 50 (record { source = source.old; durations = [] })) }
{
    let mut durations = Vec::new(alloc);
    for k in 0..STARTS {
        durations.push(1 + draw(source, 4))?;
    }
    Ok(durations)
}

/// The load cells of an intervention so far, the risks of all interventions so far, and the generator.
#[derive(Drop)]
struct RunDraws {
    source: Pcg32,
    cells: Vec<LoadCell>,
    risks: Vec<Fixed>,
}

impl Model for RunDraws {
    ghost use Rattle.instance_gen.specs.Drawing.{Runs};

    ghost Value = { Runs };

    ghost view = { λ d. record { source = d.source; cells = d.cells.items; risks = d.risks.items } };
}

impl RunDraws {
    /// Draws the load of the first resource at start `s` in period `t`.
    fn draw_first_load(&mut self, s: u32, t: u32) -> Result<(), AllocError>
        ensures { OnOk result (self.new ≡ with_first_load s t self.old) }
    {
        let load = whole(1 + draw(&mut self.source, 9));
        self.cells.push(LoadCell {
            start: s,
            period: t,
            resource: 0,
            load,
        })?;
        Ok(())
    }

    /// Draws the load of the second.
    fn draw_second_load(&mut self, s: u32, t: u32) -> Result<(), AllocError>
        ensures { OnOk result (self.new ≡ with_second_load s t self.old) }
    {
        let load = whole(draw(&mut self.source, 5));
        self.cells.push(LoadCell {
            start: s,
            period: t,
            resource: 1,
            load,
        })?;
        Ok(())
    }

    /// Draws the risk in one scenario.
    fn draw_risk(&mut self) -> Result<(), AllocError>
        ensures { OnOk result (self.new ≡ with_risk self.old) }
    {
        let risk = whole(draw(&mut self.source, 100));
        self.risks.push(risk)?;
        Ok(())
    }

    /// Draws the risks in all scenarios of a period.
    fn draw_risks(&mut self) -> Result<(), AllocError>
        ensures { OnOk result (self.new ≡ with_risks 8 self.old) }
    {
        for k in 0..SCENARIOS {
            self.draw_risk()?;
        }
        Ok(())
    }

    /// Draws loads and risks at start `s` in period `t`.
    fn draw_period(&mut self, s: u32, t: u32) -> Result<(), AllocError>
        ensures { OnOk result (self.new ≡ with_period s t self.old) }
    {
        self.draw_first_load(s, t)?;
        self.draw_second_load(s, t)?;
        self.draw_risks()
    }

    /// Draws those of the run at start `s`, whose duration is given.
    fn draw_run(&mut self, s: u32, duration: u32) -> Result<(), AllocError>
        requires { s + duration < 1000 }
        ensures { OnOk result (self.new ≡ with_run s duration self.old) }
    {
        for k in 0..duration {
            self.draw_period(s, s + k)?;
        }
        Ok(())
    }

    /// Draws those of the runs at all starts.
    fn draw_starts(&mut self, durations: &[u32]) -> Result<(), AllocError>
        requires few { length durations.now < 500 }
        requires short { (k : ℕ) → slice_index durations.now k < 500 }
        ensures { OnOk result (self.new ≡ with_starts durations.now (length durations.now) self.old) }
    {
        for (k, duration) in durations.iter().enumerate() {
            self.draw_run(k as u32 + 1, *duration)?;
        }
        Ok(())
    }
}

/// Durations and load cells by intervention, all risks, and the generator that has given their words.
#[derive(Drop)]
pub struct Draws {
    source: Pcg32,
    pub delta: Vec<Vec<u32>>,
    pub loads: Vec<Vec<LoadCell>>,
    pub risks: Vec<Fixed>,
}

impl Model for Draws {
    ghost use Rattle.std.specs.Prelude.{map};
    ghost use Rattle.instance_gen.specs.Drawing.{Drawn};

    ghost Value = { Drawn };

    ghost view = { λ d. record {
      source = d.source;
      delta = map (λ v. v.items) d.delta.items;
      loads = map (λ v. v.items) d.loads.items;
      risks = d.risks.items;
    } };
}

/// Draws one more intervention.
fn with_intervention(alloc: Global, draws: Draws) -> Result<Draws, AllocError>
    ensures { IfOk result (λ draws'. draws' ≡ with_intervention draws) }
{
    let Draws {
        source,
        delta,
        loads,
        risks,
    } = draws;
    let mut source = source;
    let durations = durations(alloc, &mut source)?;
    let mut runs = RunDraws {
        source,
        cells: Vec::new(alloc),
        risks,
    };
    runs.draw_starts(durations.as_slice())?;
    let RunDraws {
        source,
        cells,
        risks,
    } = runs;
    let mut delta = delta;
    delta.push(durations)?;
    let mut loads = loads;
    loads.push(cells)?;
    Ok(Draws {
        source,
        delta,
        loads,
        risks,
    })
}

/// Draws `n` interventions.
pub fn draw_interventions(alloc: Global, seed: u64, n: u32) -> Result<Draws, AllocError>
    ensures { IfOk result (λ draws. draws ≡ interventions_of seed n) }
{
    let mut draws = Draws {
        source: Pcg32::seed_from_u64(seed),
        delta: Vec::new(alloc),
        loads: Vec::new(alloc),
        risks: Vec::new(alloc),
    };
    for k in 0..n {
        draws = with_intervention(alloc, draws)?;
    }
    Ok(draws)
}
