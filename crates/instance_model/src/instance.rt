//! The instance: contracts see it as the record `Tables`, and each call reads one function of those tables.
ghost use Rattle.std.specs.Prelude.{◌^◌, ◌≡◌, ◌+◌, ◌<◌, ◌≤◌, ◌*◌, length, IfOk, IfSome, IfNone, IsTrue, Contains, []};
ghost use Rattle.std.specs.Prelude.{slice_index_or, slice_get, None, Some, position, bytes_eq, unsigned_abs};
ghost use Rattle.fixed_num.specs.Sums.{list_of};
ghost use Rattle.instance_model.specs.Fitting.{IsFitting, AreCells};
ghost use Rattle.instance_model.specs.RiskNumbers.{numbers_of};
ghost use Rattle.instance_model.specs.RunRisks.{list_place};
ghost use Rattle.instance_model.specs.View.{tables_of};
ghost use Rattle.instance_model.specs.Tables.{scenarios_of, tmax, delta_of, is_allowed, in_run, risk_of, soft_of};
ghost use Rattle.instance_model.specs.Tables.{entry_place, scenarios_before, periods_before};
ghost use Rattle.instance_model.specs.Tables.{load_of, rank_of, upper_of, lower_of, in_season_of, exclusion_of};

use crate::cells::find_cell;
use crate::offsets::{Offsets, is_allowed_in, start_count};
use crate::parts::{Exclusion, LoadCell, Parts};
use crate::risk_numbers::RiskNumbers;
use crate::run_risks::{RunRisks, part};
use fixed_num::{Fixed, Steps};
use std::alloc::{AllocError, Global};
use std::marker::Model;
use std::sync::ledger::Ledger;

/// An instance whose tables fit.
pub struct Instance {
    parts: Parts,
    risks: Offsets,
    soft: Offsets,
}

impl Model for Instance {
    ghost use Rattle.instance_model.specs.Tables.{Tables};

    ghost Value = { Tables };

    ghost use Rattle.instance_model.specs.Indexed.{view_of, IsIndexed};

    ghost view = { view_of };

    ghost invariant = { IsIndexed };
}

/// A call, so that a proof doesn't go through all tables wherever an instance is dropped.
impl Drop for Instance {
    fn drop(self) {
        let Instance {
            parts: _,
            risks: _,
            soft: _,
        } = self;
    }
}

/// Counts `count` steps.
fn count_steps<L: Ledger>(count: u32, steps: &mut Steps<L>)
    ensures { steps.new ≡ steps.old + count }
{
    for k in 0..count {
        steps.tick();
    }
}

impl Instance {
    /// The instance of these tables. Takes memory for the places of the risks and of the soft flags.
    pub fn from_parts(alloc: Global, parts: Parts) -> Result<Instance, AllocError>
        requires fits { IsFitting (tables_of parts) }
        ensures { IfOk result (λ inst. inst ≡ tables_of parts) }
    {
        let risks = Offsets::of_risks(alloc, &parts)?;
        let soft = Offsets::of_soft(alloc, &parts)?;
        Ok(Instance { parts, risks, soft })
    }

    /// The tables fit, which each method of an instance may rely on.
    pub fn fits(&self)
        ensures { IsFitting self.now }
    {
        let _ = &self.parts;
    }

    pub fn periods(&self) -> u32
        ensures value { result ≡ self.now.periods }
        ensures some { 1 ≤ result }
        ensures few { result ≤ 512 }
    {
        self.parts.periods
    }

    /// How many scenarios period `t` has.
    #[tactic(auto, unfolding(crate::specs::Tables::scenarios_of))]
    pub fn scenarios(&self, t: u32) -> u32
        requires from { 1 ≤ t }
        requires to { t ≤ self.now.periods }
        ensures value { result ≡ scenarios_of self.now t }
        ensures some { 1 ≤ result }
        ensures few { result ≤ 1024 }
    {
        self.parts.scenarios[t as usize - 1]
    }

    /// The rank of the quantile among the scenario sums of period `t`.
    #[tactic(auto, unfolding(crate::specs::Tables::rank_of, crate::specs::Tables::scenarios_of))]
    pub fn rank(&self, t: u32) -> u32
        requires from { 1 ≤ t }
        requires to { t ≤ self.now.periods }
        ensures value { result ≡ rank_of self.now t }
        ensures some { 1 ≤ result }
        ensures few { result ≤ scenarios_of self.now t }
    {
        let n = self.scenarios(t);
        ((self.parts.quantile as u64 * n as u64 + 999_999) / 1_000_000) as u32
    }

    /// The weight of the mean, in millionths.
    pub fn alpha(&self) -> u32
        ensures value { result ≡ self.now.alpha }
        ensures small { result ≤ 1_000_000 }
    {
        self.parts.alpha
    }

    /// In millionths.
    pub fn quantile(&self) -> u32
        ensures value { result ≡ self.now.quantile }
        ensures some { 1 ≤ result }
        ensures small { result ≤ 1_000_000 }
    {
        self.parts.quantile
    }

    /// How many interventions there are.
    pub fn interventions(&self) -> u32
        ensures value { result ≡ length self.now.names }
        ensures few { result ≤ 1024 }
    {
        self.parts.interventions.len() as u32
    }

    /// The name of intervention `i`.
    pub fn name(&self, i: u32) -> &str
        requires { i < length self.now.names }
        ensures value { slice_get self.now.names i ≡ Some result.now }
        ensures short { length result.now ≤ 128 }
    {
        self.parts.interventions.as_slice()[i as usize].as_str()
    }

    /// The number of the intervention of this name.
    pub fn find(&self, name: &str) -> Option<u32>
        ensures value { result ≡ position (bytes_eq name.now) self.now.names }
        ensures within { IfSome result (λ i. i < length self.now.names) }
        ensures found { IfSome result (λ i. slice_get self.now.names i ≡ Some name.now) }
        ensures none { IfNone result (¬ Contains self.now.names name.now) }
    {
        match self.parts.interventions.index_of(name) {
            Some(i) => Some(i as u32),
            None => None,
        }
    }

    /// How many starts intervention `i` has.
    pub fn tmax(&self, i: u32) -> u32
        requires { i < length self.now.names }
        ensures value { result ≡ tmax self.now i }
        ensures some { 1 ≤ result }
        ensures few { result ≤ self.now.periods }
    {
        start_count(&self.parts, i as usize) as u32
    }

    /// The duration of intervention `i` at start `s`, in periods.
    #[tactic(auto, unfolding(crate::specs::Tables::delta_of, crate::specs::Tables::tmax, crate::specs::Tables::durations))]
    pub fn delta(&self, i: u32, s: u32) -> u32
        requires number { i < length self.now.names }
        requires from { 1 ≤ s }
        requires to { s ≤ tmax self.now i }
        ensures value { result ≡ delta_of self.now i s }
        ensures small { result < 1_000_000_000 }
    {
        self.parts.delta[i as usize][s as usize - 1]
    }

    /// Whether intervention `i` may start at `s`, whatever `s` is.
    #[tactic(auto, unfolding(crate::specs::Tables::is_allowed, crate::specs::Tables::durations))]
    pub fn allowed(&self, i: u32, s: u32) -> bool
        requires { i < length self.now.names }
        ensures { result ≡ is_allowed self.now i s }
    {
        is_allowed_in(self.parts.periods, &self.parts.delta[i as usize], s)
    }

    /// How many resources there are.
    pub fn resources(&self) -> u32
        ensures value { result ≡ length self.now.resource_names }
        ensures few { result ≤ 32 }
    {
        self.parts.resources.len() as u32
    }

    pub fn resource_name(&self, c: u32) -> &str
        requires { c < length self.now.resource_names }
        ensures value { slice_get self.now.resource_names c ≡ Some result.now }
        ensures short { length result.now ≤ 128 }
    {
        self.parts.resources.as_slice()[c as usize].as_str()
    }

    /// The upper limit of resource `c` in period `t`, in counts of 10^-12.
    #[tactic(auto, unfolding(crate::specs::Tables::upper_of))]
    pub fn upper(&self, c: u32, t: u32) -> i128
        requires resource { c < length self.now.resource_names }
        requires from { 1 ≤ t }
        requires to { t ≤ self.now.periods }
        ensures value { result ≡ upper_of self.now c t }
        ensures small { unsigned_abs result < 2 * 10 ^ 20 }
    {
        self.parts.upper[c as usize * self.parts.periods as usize + (t as usize - 1)]
    }

    /// The lower limit of resource `c` in period `t`, in counts of 10^-12.
    #[tactic(auto, unfolding(crate::specs::Tables::lower_of))]
    pub fn lower(&self, c: u32, t: u32) -> i128
        requires resource { c < length self.now.resource_names }
        requires from { 1 ≤ t }
        requires to { t ≤ self.now.periods }
        ensures value { result ≡ lower_of self.now c t }
        ensures small { unsigned_abs result < 2 * 10 ^ 20 }
    {
        self.parts.lower[c as usize * self.parts.periods as usize + (t as usize - 1)]
    }

    /// The workload of resource `c` in period `t` of intervention `i` at start `s`.
    /// Searches the cells of `i` by bisection.
    pub fn load(&self, i: u32, s: u32, c: u32, t: u32) -> Fixed
        requires number { i < length self.now.names }
        requires allowed { IsTrue (is_allowed self.now i s) }
        requires running { IsTrue (in_run self.now i s t) }
        requires resource { c < length self.now.resource_names }
        ensures { result ≡ load_of self.now i s c t }
    {
        let cells = self.parts.loads[i as usize].as_slice();
        match find_cell(cells, s, t, c) {
            Some(k) => cells[k].load,
            None => Fixed::zero(),
        }
    }

    /// The workloads of intervention `i`, in order of start, then period, then resource.
    pub fn workloads(&self, i: u32) -> &[LoadCell]
        requires { i < length self.now.names }
        ensures value { result.now ≡ slice_index_or self.now.loads i [] }
        ensures cells { AreCells self.now i result.now }
    {
        self.parts.loads[i as usize].as_slice()
    }

    /// How many seasons there are.
    pub fn seasons(&self) -> u32
        ensures value { result ≡ length self.now.season_names }
        ensures few { result ≤ 64 }
    {
        self.parts.seasons.len() as u32
    }

    pub fn season_name(&self, q: u32) -> &str
        requires { q < length self.now.season_names }
        ensures value { slice_get self.now.season_names q ≡ Some result.now }
        ensures short { length result.now ≤ 128 }
    {
        self.parts.seasons.as_slice()[q as usize].as_str()
    }

    /// Whether period `t` belongs to season `q`.
    #[tactic(auto, unfolding(crate::specs::Tables::in_season_of))]
    pub fn in_season(&self, q: u32, t: u32) -> bool
        requires season { q < length self.now.season_names }
        requires from { 1 ≤ t }
        requires to { t ≤ self.now.periods }
        ensures { result ≡ in_season_of self.now q t }
    {
        self.parts.in_season[q as usize * self.parts.periods as usize + (t as usize - 1)]
    }

    /// How many exclusions there are.
    pub fn exclusions(&self) -> u32
        ensures value { result ≡ length self.now.exclusion_names }
        ensures few { result ≤ 65_536 }
    {
        self.parts.exclusions.len() as u32
    }

    #[tactic(auto, unfolding(crate::specs::Tables::exclusion_of))]
    pub fn exclusion(&self, e: u32) -> Exclusion
        requires { e < length self.now.exclusion_names }
        ensures value { result ≡ exclusion_of self.now e }
        ensures first { result.first < length self.now.names }
        ensures second { result.second < length self.now.names }
        ensures season { result.season < length self.now.season_names }
    {
        self.parts.excluded[e as usize]
    }

    pub fn exclusion_name(&self, e: u32) -> &str
        requires { e < length self.now.exclusion_names }
        ensures value { slice_get self.now.exclusion_names e ≡ Some result.now }
        ensures short { length result.now ≤ 128 }
    {
        self.parts.exclusions.as_slice()[e as usize].as_str()
    }

    /// How many numbers of the file were changed by rounding.
    pub fn rounded(&self) -> u64
        ensures { result ≡ self.now.rounded }
    {
        self.parts.rounded
    }

    /// The risk of intervention `i` at start `s`, in period `t` and scenario `k`. Counts as one step.
    pub fn risk_cell<L: Ledger>(
        &self,
        i: u32,
        s: u32,
        t: u32,
        k: u32,
        steps: &mut Steps<L>,
    ) -> Fixed
        requires number { i < length self.now.names }
        requires allowed { IsTrue (is_allowed self.now i s) }
        requires running { IsTrue (in_run self.now i s t) }
        requires from { 1 ≤ k }
        requires to { k ≤ scenarios_of self.now t }
        ensures value { result ≡ risk_of self.now i s t k }
        ensures cost { steps.new ≡ steps.old + 1 }
    {
        steps.tick();
        self.risks_in(i, s, t).at(k as usize - 1)
    }

    /// The risks of intervention `i` at start `s` in period `t`, by scenario. Counts as one step for each.
    pub fn risks<L: Ledger>(&self, i: u32, s: u32, t: u32, steps: &mut Steps<L>) -> RiskNumbers<'_>
        requires number { i < length self.now.names }
        requires allowed { IsTrue (is_allowed self.now i s) }
        requires running { IsTrue (in_run self.now i s t) }
        requires from { 1 ≤ t }
        requires to { t ≤ self.now.periods }
        ensures each { length (numbers_of result) ≡ scenarios_of self.now t }
        ensures value { numbers_of result
            ≡ list_of (scenarios_of self.now t) (λ k. risk_of self.now i s t (k + 1)) }
        ensures cost { steps.new ≡ steps.old + scenarios_of self.now t }
    {
        count_steps(self.scenarios(t), steps);
        self.risks_in(i, s, t)
    }

    /// The same, without a step.
    fn risks_in(&self, i: u32, s: u32, t: u32) -> RiskNumbers<'_>
        requires number { i < length self.now.names }
        requires allowed { IsTrue (is_allowed self.now i s) }
        requires running { IsTrue (in_run self.now i s t) }
        ensures each { length (numbers_of result) ≡ scenarios_of self.now t }
        ensures value { numbers_of result
            ≡ list_of (scenarios_of self.now t) (λ k. risk_of self.now i s t (k + 1)) }
    {
        match &self.parts.risks {
            RunRisks::InOrder { numbers, .. } => {
                let from = self.risk_place(i, s, t);
                part(numbers.as_slice(), from, from + self.scenarios(t) as usize)
            }
            RunRisks::AsRead(works) => works[i as usize].numbers(self.list_place(i, s, t)),
        }
    }

    /// Where the risks of intervention `i` at start `s` in period `t` stand in the table of risks.
    fn risk_place(&self, i: u32, s: u32, t: u32) -> usize
        requires number { i < length self.now.names }
        requires allowed { IsTrue (is_allowed self.now i s) }
        requires running { IsTrue (in_run self.now i s t) }
        ensures place { result ≡ entry_place self.now (scenarios_before self.now) i s t }
        ensures within { result + scenarios_of self.now t ≤ length self.now.risks }
        ensures small { result + scenarios_of self.now t < 2 ^ 63 }
    {
        self.risks.place(i, s, t)
    }

    /// The place of the same in the table of soft flags.
    fn flag_place(&self, i: u32, s: u32, t: u32) -> usize
        requires number { i < length self.now.names }
        requires allowed { IsTrue (is_allowed self.now i s) }
        requires running { IsTrue (in_run self.now i s t) }
        ensures place { result ≡ entry_place self.now periods_before i s t }
        ensures within { result < length self.now.soft }
    {
        self.soft.place(i, s, t)
    }

    /// The place of the same among the lists of intervention `i`.
    fn list_place(&self, i: u32, s: u32, t: u32) -> usize
        requires number { i < length self.now.names }
        requires allowed { IsTrue (is_allowed self.now i s) }
        requires running { IsTrue (in_run self.now i s t) }
        ensures { result ≡ list_place self.now i s t }
    {
        self.soft.place_within(i, s, t)
    }

    /// Whether one of the risk numbers of intervention `i` at start `s` in period `t` was changed by rounding.
    pub fn soft(&self, i: u32, s: u32, t: u32) -> bool
        requires number { i < length self.now.names }
        requires allowed { IsTrue (is_allowed self.now i s) }
        requires running { IsTrue (in_run self.now i s t) }
        ensures { result ≡ soft_of self.now i s t }
    {
        match &self.parts.risks {
            RunRisks::InOrder { soft, .. } => soft[self.flag_place(i, s, t)],
            RunRisks::AsRead(works) => works[i as usize].soft(self.list_place(i, s, t)),
        }
    }
}
