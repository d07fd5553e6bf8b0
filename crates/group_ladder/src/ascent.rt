//! The supergradient ascent: each round moves all numbers of a list towards what the starts of least price break, and
//! the best list is kept.
//!
//! Amounts stop at the ends of their type: nothing rests on them, since the list that is found is tested, and its worth
//! computed again.
ghost use Rattle.std.specs.Prelude.{◌≡◌, ◌*◌, ◌<◌, length, All, IfOk};
ghost use Rattle.lagrange_bound.specs.Prices.{IsPriceList};
ghost use Rattle.group_ladder.specs.Search.{AreStarts, IsRange};

use crate::band::{
    Band, Work, add_rates, all_works, bands_of, fixed_of_bands, keep_bands, note_loads, step_bands,
    sum_of_loads,
};
use crate::clique::{
    Set, Spot, add_charges, all_sets, all_spots, fixed_of_charges, keep_charges, member_count,
    step_charges,
};
use crate::deal::all_tails;
use crate::list::list_of;
use crate::number::{Number, Pace, quotient};
use crate::pricing::{
    add_runs, begin_tails, charge_offsets, choose, keep_tails, pull_count, shift_tails, step_tails,
};
use crate::run_sums::{all_shares, all_sums, bases_of, mean_share, sum_of_periods};
use crate::scales::Scales;
use crate::start::{Range, Start};
use crate::tail::Tail;
use crate::units::{PARTS, Units};
use instance_model::Instance;
use refined_prices::RefinedPrices;
use std::alloc::{AllocError, Global};
use std::marker::Model;

/// The numbers of a list, and what follows from them.
#[derive(Drop)]
pub(crate) struct Ascent<'a> {
    inst: &'a Instance,
    units: Units,
    scales: Scales,
    /// The mean risk of each intervention in a period in progress.
    shares: Vec<i64>,
    /// By intervention, then start.
    starts: Vec<Start>,
    /// What starts add whatever the prices are.
    bases: Vec<i64>,
    ranges: Vec<Range>,
    works: Vec<Work>,
    /// By resource, then period.
    bands: Vec<Band>,
    sets: Vec<Set>,
    spots: Vec<Spot>,
    /// The prices of cliques, by spot.
    charges: Vec<Number>,
    /// By period.
    tails: Vec<Option<Tail>>,
    /// By intervention, then period: what it pays in progress there.
    dues: Vec<i64>,
    /// The prices of all starts.
    entries: Vec<i64>,
    /// Whether a start is the one of least price.
    chosen: Vec<bool>,
    /// By intervention, then period: whether that one is in progress.
    busy: Vec<bool>,
    worth: i64,
}

impl<'a> Model for Ascent<'a> {
    ghost use Rattle.std.specs.Prelude.{length};
    ghost use Rattle.instance_model.specs.Tables.{Tables};
    ghost use Rattle.group_ladder.specs.Search.{IsAscent};

    ghost Value = { Tables };

    ghost view = { λ a. a.inst.now };

    ghost invariant = { λ a. IsAscent a.inst.now a.starts.items (length a.bases.items) a.ranges.items a.works.items
        (length a.bands.items) a.sets.items a.spots.items (length a.charges.items) (length a.tails.items)
        (length a.dues.items) (length a.entries.items) (length a.chosen.items) (length a.busy.items) };
}

/// What the weights of a group come to.
fn weight_of(inst: &Instance) -> i64 {
    let mean = i64::from(inst.alpha()).saturating_mul(PARTS) / 1_000_000;
    PARTS.saturating_sub(mean)
}

impl<'a> Ascent<'a> {
    /// Begins at a list of zeros, over these starts.
    pub(crate) fn new(
        alloc: Global,
        inst: &'a Instance,
        units: Units,
        starts: Vec<Start>,
        ranges: Vec<Range>,
    ) -> Result<Ascent<'a>, AllocError>
        requires starts { AreStarts inst.now starts.items }
        requires each { length ranges.items ≡ length inst.now.names }
        requires ranges { All (IsRange (length starts.items)) ranges.items }
        ensures { IfOk result (λ ascent. ascent ≡ inst.now) }
    {
        inst.fits();
        let weight = weight_of(inst);
        let sums = all_sums(alloc, inst, &starts)?;
        let tails = all_tails(alloc, inst, &starts, &ranges, &sums, weight)?;
        let shares = all_shares(alloc, inst, &starts, &ranges)?;
        let works = all_works(alloc, inst, units, &starts, &ranges)?;
        let load = quotient(sum_of_loads(&works), sum_of_periods(&starts)).max(1);
        let scales = Scales {
            weight,
            risk: mean_share(&shares),
            load,
        };
        let sets = all_sets(alloc, inst)?;
        let spots = all_spots(alloc, inst, &sets)?;
        let count = inst.interventions() as usize * inst.periods() as usize;
        Ok(Ascent {
            inst,
            units,
            scales,
            shares,
            bases: bases_of(alloc, inst, &tails, &starts, weight)?,
            ranges,
            works,
            bands: bands_of(alloc, inst, units)?,
            charges: vec![in alloc; Number::new(0); spots.len()]?,
            sets,
            spots,
            tails,
            dues: vec![in alloc; 0; count]?,
            entries: vec![in alloc; 0; starts.len()]?,
            chosen: vec![in alloc; false; starts.len()]?,
            busy: vec![in alloc; false; count]?,
            starts,
            worth: 0,
        })
    }

    /// How much work a round is, but for the risks of the starts.
    pub(crate) fn size(&self) -> u64 {
        (self.works.len() as u64)
            .saturating_add(member_count(&self.sets, &self.spots))
            .saturating_add(pull_count(&self.tails).saturating_mul(8))
    }

    /// Computes what interventions pay in progress by the prices of cliques.
    fn charge_cliques(&mut self)
        ensures { self.new ≡ self.old }
    {
        self.dues.fill(0);
        add_charges(
            self.inst,
            &mut self.dues,
            &self.sets,
            &self.spots,
            &self.charges,
        );
    }

    /// Takes the least offsets off what interventions pay in progress; what offsets add whatever the starts are.
    fn charge_groups(&mut self) -> i64
        ensures { self.new ≡ self.old }
    {
        charge_offsets(self.inst, &mut self.dues, &mut self.tails)
    }

    /// Computes what interventions pay in progress; what the list adds whatever the starts are.
    fn charge(&mut self) -> i64
        ensures { self.new ≡ self.old }
    {
        self.charge_cliques();
        self.charge_groups()
            .saturating_add(fixed_of_bands(&self.bands))
            .saturating_add(fixed_of_charges(&self.charges))
    }

    /// Computes the prices of all starts.
    fn price_starts(&mut self)
        ensures { self.new ≡ self.old }
    {
        self.entries.copy_from_slice(self.bases.as_slice());
        add_rates(&mut self.entries, &self.bands, &self.works);
        add_runs(
            self.inst,
            &mut self.entries,
            &self.dues,
            &self.tails,
            &self.starts,
            &self.ranges,
        );
    }

    /// Chooses a start of least price for each intervention; the sum of their prices.
    fn choose_starts(&mut self) -> i64
        ensures { self.new ≡ self.old }
    {
        choose(
            self.inst,
            &self.entries,
            &self.starts,
            &self.ranges,
            &mut self.chosen,
            &mut self.busy,
            &mut self.tails,
        )
    }

    /// Computes the loads by the chosen starts.
    fn load_bands(&mut self)
        ensures { self.new ≡ self.old }
    {
        note_loads(&mut self.bands, &self.chosen, &self.works);
    }

    /// Computes what follows from the numbers.
    fn settle(&mut self) -> Result<(), AllocError>
        ensures { self.new ≡ self.old }
    {
        begin_tails(&mut self.tails)?;
        let fixed = self.charge();
        self.price_starts();
        self.worth = self.choose_starts().saturating_add(fixed);
        self.load_bands();
        Ok(())
    }

    /// Moves all numbers.
    fn step(&mut self, pace: Pace)
        ensures { self.new ≡ self.old }
    {
        step_bands(&mut self.bands, self.scales, pace);
        step_charges(
            self.inst,
            &mut self.charges,
            &self.sets,
            &self.spots,
            &self.busy,
            self.scales,
            pace,
        );
        step_tails(&mut self.tails, &self.shares, self.scales, pace);
    }

    /// Notes that these are the best numbers so far.
    fn keep(&mut self)
        ensures { self.new ≡ self.old }
    {
        keep_bands(&mut self.bands);
        keep_charges(&mut self.charges);
        keep_tails(&mut self.tails);
    }

    /// The same, where their worth is above the greatest one so far; the greatest one then.
    fn keep_best(&mut self, best: i64) -> i64
        ensures { self.new ≡ self.old }
    {
        let worth = self.worth;
        if worth <= best {
            return best;
        }
        self.keep();
        worth
    }

    /// Lets scenarios go to other groups, in some of so many rounds.
    fn shift(&mut self, round: u32, rounds: u32)
        ensures { self.new ≡ self.old }
    {
        let light = round % 10 == 9 && round / 7 < rounds / 10;
        let spare = round % 10 == 4 && round >= rounds / 10 && round < rounds / 3;
        shift_tails(&mut self.tails, light, spare, self.scales);
    }

    /// So many rounds. The best numbers are noted.
    pub(crate) fn ascend(&mut self, rounds: u32) -> Result<(), AllocError>
        ensures { self.new ≡ self.old }
    {
        let mut pace = Pace::first();
        let mut best = i64::MIN;
        for round in 0..rounds {
            self.settle()?;
            best = self.keep_best(best);
            self.shift(round, rounds);
            self.step(pace);
            pace = pace.next(rounds);
        }
        Ok(())
    }

    /// The best list, in whole numbers.
    pub(crate) fn list(&self, alloc: Global) -> Result<RefinedPrices, AllocError>
        ensures { IfOk result (λ list. IsPriceList self.now list.prices) }
    {
        list_of(
            alloc,
            self.inst,
            self.units,
            self.scales.weight,
            &self.bands,
            &self.sets,
            &self.spots,
            &self.charges,
            &self.tails,
        )
    }
}
