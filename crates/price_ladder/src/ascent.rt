//! The supergradient ascent of the first phase: each round moves all prices towards what the starts of least price
//! break, and the best list is kept.
//!
//! What prices add and worths are in parts of 10^-12. Amounts stop at the ends of their type: nothing rests on them,
//! since the worth of the list that is kept is computed again.
ghost use Rattle.std.specs.Prelude.{◌≡◌, ◌*◌, ◌<◌, length, IfOk, OnOk, IsTrue};
ghost use Rattle.instance_model.specs.Tables.{is_allowed};
ghost use Rattle.instance_model.specs.Plans.{AreAllowedStarts};
ghost use Rattle.lagrange_bound.specs.Prices.{IsPriceList};
ghost use Rattle.price_ladder.specs.Phase.{AreSpots};

use crate::aim::{Aim, Outcome};
use crate::band::{
    Band, bands_of, fixed_of_bands, keep_bands, move_bands, pull_bands, squares_of_bands,
    take_back_bands,
};
use crate::number::Number;
use crate::spot::{
    Spot, charges_of, fixed_of_charges, keep_charges, move_charges, note_burdens, pull_charges,
    put_spots, squares_of_charges, take_back_charges,
};
use crate::start_place::{band_place, period_place, start_place};
use crate::work::{Work, add_rates, all_works, mean_load, note_loads};
use duration_calendar::run;
use instance_model::Instance;
use lagrange_bound::Prices;
use std::alloc::{AllocError, Global};
use std::marker::Model;

/// The prices, and what follows from them.
#[derive(Drop)]
pub(crate) struct Ascent<'a> {
    inst: &'a Instance,
    /// What starts cost without prices, by intervention, then start.
    bases: Vec<i64>,
    works: Vec<Work>,
    /// By resource, then period.
    bands: Vec<Band>,
    spots: Vec<Spot>,
    /// The prices of exclusions, by spot.
    charges: Vec<Number>,
    /// How strongly the prices of exclusions are pulled.
    weight: i64,
    /// By intervention, then period: what the prices of exclusions add.
    burdens: Vec<i64>,
    /// By intervention, then start: the prices of all starts.
    entries: Vec<i64>,
    /// By intervention: a start of least price.
    choice: Vec<u32>,
    /// By intervention, then start: whether it is that one.
    chosen: Vec<bool>,
    /// By intervention, then period: whether that one is in progress.
    busy: Vec<bool>,
    worth: i64,
}

impl<'a> Model for Ascent<'a> {
    ghost use Rattle.std.specs.Prelude.{length};
    ghost use Rattle.instance_model.specs.Tables.{Tables};
    ghost use Rattle.price_ladder.specs.Phase.{IsAscent};

    ghost Value = { Tables };

    ghost view = { λ a. a.inst.now };

    ghost invariant = { λ a. IsAscent a.inst.now (length a.bases.items) a.works.items (length a.bands.items)
        a.spots.items (length a.charges.items) (length a.burdens.items) (length a.entries.items) a.choice.items
        (length a.chosen.items) (length a.busy.items) };
}

/// An amount in parts of 10^-12.
fn coarse_base(base: i128) -> i64 {
    (base / 1_000_000).clamp(-1_000_000_000_000_000_000, 1_000_000_000_000_000_000) as i64
}

fn coarse_bases(alloc: Global, bases: &[i128]) -> Result<Vec<i64>, AllocError>
    ensures { IfOk result (λ coarse. length coarse.items ≡ length bases.now) }
{
    let mut coarse = Vec::with_capacity(alloc, bases.len())?;
    for base in bases {
        coarse.push(coarse_base(*base))?;
    }
    Ok(coarse)
}

/// What the burdens of a run add up to.
fn burden_of(inst: &Instance, burdens: &[i64], i: u32, s: u32) -> i64
    requires each { length burdens.now ≡ length inst.now.names * inst.now.periods }
    requires number { i < length inst.now.names }
    requires allowed { IsTrue (is_allowed inst.now i s) }
{
    let window = run(inst, i, s);
    let mut sum: i64 = 0;
    for t in window.from..window.past {
        sum = sum.saturating_add(burdens[period_place(inst, i, t)]);
    }
    sum
}

/// Adds the burdens of intervention `i` to the prices of its starts.
fn add_burdens_of(inst: &Instance, entries: &mut [i64], burdens: &[i64], i: u32)
    requires entries { length entries.old ≡ length inst.now.names * inst.now.periods }
    requires burdens { length burdens.now ≡ length inst.now.names * inst.now.periods }
    requires number { i < length inst.now.names }
{
    inst.fits();
    for s in 1..inst.tmax(i) + 1 {
        if inst.allowed(i, s) {
            let more = burden_of(inst, burdens, i, s);
            let entry = &mut entries[start_place(inst, i, s)];
            *entry = entry.saturating_add(more);
        }
    }
}

/// Adds the burdens to the prices of all starts.
fn add_burdens(inst: &Instance, entries: &mut [i64], burdens: &[i64])
    requires entries { length entries.old ≡ length inst.now.names * inst.now.periods }
    requires burdens { length burdens.now ≡ length inst.now.names * inst.now.periods }
{
    for i in 0..inst.interventions() {
        add_burdens_of(inst, entries, burdens, i);
    }
}

/// The first start of intervention `i` of least price, sought from an allowed start on.
fn cheapest(inst: &Instance, entries: &[i64], i: u32, allowed: u32) -> u32
    requires each { length entries.now ≡ length inst.now.names * inst.now.periods }
    requires number { i < length inst.now.names }
    requires allowed { IsTrue (is_allowed inst.now i allowed) }
    ensures { IsTrue (is_allowed inst.now i result) }
{
    inst.fits();
    let mut best = allowed;
    let mut least = entries[start_place(inst, i, allowed)];
    for s in 1..inst.tmax(i) + 1 {
        if inst.allowed(i, s) {
            let price = entries[start_place(inst, i, s)];
            if price < least {
                best = s;
                least = price;
            }
        }
    }
    best
}

/// Chooses a start of least price for each intervention.
fn choose(inst: &Instance, entries: &[i64], choice: &mut Vec<u32>)
    requires each { length entries.now ≡ length inst.now.names * inst.now.periods }
    requires choice { AreAllowedStarts inst.now choice.old.items }
    ensures { AreAllowedStarts inst.now choice.new.items }
{
    for i in 0..inst.interventions() {
        choice[i as usize] = cheapest(inst, entries, i, choice[i as usize]);
    }
}

/// The sum of the prices of these starts.
fn least_sum(inst: &Instance, entries: &[i64], choice: &[u32]) -> i64
    requires each { length entries.now ≡ length inst.now.names * inst.now.periods }
    requires choice { AreAllowedStarts inst.now choice.now }
{
    let mut sum: i64 = 0;
    for i in 0..inst.interventions() {
        sum = sum.saturating_add(entries[start_place(inst, i, choice[i as usize])]);
    }
    sum
}

/// Notes that intervention `i` begins at start `s`, and in which periods it is in progress then.
fn note_start(inst: &Instance, i: u32, s: u32, chosen: &mut [bool], busy: &mut [bool])
    requires chosen { length chosen.old ≡ length inst.now.names * inst.now.periods }
    requires busy { length busy.old ≡ length inst.now.names * inst.now.periods }
    requires number { i < length inst.now.names }
    requires allowed { IsTrue (is_allowed inst.now i s) }
{
    chosen[start_place(inst, i, s)] = true;
    let window = run(inst, i, s);
    for t in window.from..window.past {
        busy[period_place(inst, i, t)] = true;
    }
}

/// Notes which starts are chosen, and in which periods each intervention is in progress then.
fn note_choice(inst: &Instance, choice: &[u32], chosen: &mut [bool], busy: &mut [bool])
    requires chosen { length chosen.old ≡ length inst.now.names * inst.now.periods }
    requires busy { length busy.old ≡ length inst.now.names * inst.now.periods }
    requires choice { AreAllowedStarts inst.now choice.now }
{
    chosen.fill(false);
    busy.fill(false);
    for i in 0..inst.interventions() {
        note_start(inst, i, choice[i as usize], chosen, busy);
    }
}

/// How far the greatest base of intervention `i` is above the least.
fn range_of(inst: &Instance, bases: &[i64], i: u32) -> i64
    requires each { length bases.now ≡ length inst.now.names * inst.now.periods }
    requires number { i < length inst.now.names }
{
    inst.fits();
    let mut least = i64::MAX;
    let mut most = i64::MIN;
    for s in 1..inst.tmax(i) + 1 {
        if inst.allowed(i, s) {
            let base = bases[start_place(inst, i, s)];
            least = least.min(base);
            most = most.max(base);
        }
    }
    most.saturating_sub(least).max(0)
}

impl<'a> Ascent<'a> {
    /// Begins at a list, with these prices of exclusions. The starts are where the search for those of least price
    /// begins.
    pub(crate) fn new(
        alloc: Global,
        inst: &'a Instance,
        prices: &Prices,
        bases: &[i128],
        spots: Vec<Spot>,
        starts: &[u32],
    ) -> Result<Ascent<'a>, AllocError>
        requires prices { IsPriceList inst.now prices.now }
        requires each { length bases.now ≡ length inst.now.names * inst.now.periods }
        requires spots { AreSpots inst.now spots.items }
        requires starts { AreAllowedStarts inst.now starts.now }
        ensures { IfOk result (λ ascent. ascent ≡ inst.now) }
    {
        inst.fits();
        let works = all_works(alloc, inst)?;
        let count = inst.interventions() as usize * inst.periods() as usize;
        let mut ascent = Ascent {
            inst,
            bases: coarse_bases(alloc, bases)?,
            weight: mean_load(works.as_slice()),
            works,
            bands: bands_of(alloc, inst, prices)?,
            charges: charges_of(alloc, inst, prices, spots.as_slice())?,
            spots,
            burdens: vec![in alloc; 0; count]?,
            entries: vec![in alloc; 0; count]?,
            choice: starts.to_vec(alloc)?,
            chosen: vec![in alloc; false; count]?,
            busy: vec![in alloc; false; count]?,
            worth: 0,
        };
        ascent.settle();
        Ok(ascent)
    }

    /// Computes the prices of all starts.
    fn price_starts(&mut self)
        ensures { self.new ≡ self.old }
    {
        note_burdens(&mut self.burdens, &self.spots, &self.charges);
        self.entries.copy_from_slice(self.bases.as_slice());
        add_rates(&mut self.entries, &self.bands, &self.works);
        add_burdens(self.inst, &mut self.entries, &self.burdens);
    }

    /// Chooses a start of least price for each intervention, and computes the loads of these.
    fn choose_starts(&mut self)
        ensures { self.new ≡ self.old }
    {
        choose(self.inst, &self.entries, &mut self.choice);
        note_choice(self.inst, &self.choice, &mut self.chosen, &mut self.busy);
        note_loads(&mut self.bands, &self.chosen, &self.works);
    }

    /// Computes what follows from the prices.
    fn settle(&mut self)
        ensures { self.new ≡ self.old }
    {
        self.price_starts();
        self.choose_starts();
        self.worth = least_sum(self.inst, &self.entries, &self.choice)
            .saturating_add(fixed_of_bands(&self.bands))
            .saturating_add(fixed_of_charges(&self.charges));
    }

    /// Moves all prices towards a worth that is greater by `gap`. Whether any is pulled.
    fn go(&mut self, gap: i64) -> bool
        ensures { self.new ≡ self.old }
    {
        pull_bands(&mut self.bands);
        pull_charges(&mut self.charges, &self.spots, &self.busy, self.weight);
        let squares = squares_of_bands(&self.bands).saturating_add(squares_of_charges(
            &self.charges,
        ));
        let way = i128::from(gap);
        move_bands(&mut self.bands, way, squares);
        move_charges(
            &mut self.charges,
            way.saturating_mul(i128::from(self.weight)),
            squares,
        );
        squares > 0
    }

    fn keep(&mut self)
        ensures { self.new ≡ self.old }
    {
        keep_bands(&mut self.bands);
        keep_charges(&mut self.charges);
    }

    fn take_back(&mut self)
        ensures { self.new ≡ self.old }
    {
        take_back_bands(&mut self.bands);
        take_back_charges(&mut self.charges);
        self.settle();
    }

    /// The sum of how far the greatest base of each intervention is above the least.
    pub(crate) fn range(&self) -> i64 {
        let inst = self.inst;
        let mut sum: i64 = 0;
        for i in 0..inst.interventions() {
            sum = sum.saturating_add(range_of(inst, self.bases.as_slice(), i));
        }
        sum
    }

    /// So many rounds, which first aim so far above the worth. The best prices are noted.
    pub(crate) fn ascend(&mut self, rounds: u32, above: i64)
        ensures { self.new ≡ self.old }
    {
        let mut aim = Aim::new(self.worth, above);
        for _round in 0..rounds {
            if !self.go(aim.gap(self.worth)) {
                return;
            }
            self.settle();
            match aim.take(self.worth) {
                Outcome::Best => self.keep(),
                Outcome::Lower => {}
                Outcome::Stuck => self.take_back(),
            }
        }
    }

    /// Puts the best prices into a list.
    pub(crate) fn put(&self, alloc: Global, prices: &mut Prices) -> Result<(), AllocError>
        requires { IsPriceList self.now prices.old }
        ensures { OnOk result (IsPriceList self.now prices.new) }
    {
        let inst = self.inst;
        for c in 0..inst.resources() {
            put_bands_of(inst, prices, self.bands.as_slice(), c);
        }
        put_spots(alloc, inst, prices, &self.spots, &self.charges)
    }
}

/// Puts the best prices on the limits of resource `c` into a list.
fn put_bands_of(inst: &Instance, prices: &mut Prices, bands: &[Band], c: u32)
    requires prices { IsPriceList inst.now prices.old }
    requires each { length bands.now ≡ length inst.now.resource_names * inst.now.periods }
    requires number { c < length inst.now.resource_names }
    ensures { IsPriceList inst.now prices.new }
{
    for t in 1..inst.periods() + 1 {
        let (upper, lower) = bands[band_place(inst, c, t)].best();
        prices.set_up(inst, c, t, upper);
        prices.set_lo(inst, c, t, lower);
    }
}
