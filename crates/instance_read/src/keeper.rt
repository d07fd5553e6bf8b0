//! What is kept of a text, event by event.

ghost use Rattle.std.specs.Prelude.{◌≡◌, ◌+◌, ℕ, List, cond, false, IfOk, OnOk};
ghost use Rattle.json_grammar.specs.Tree as json;
ghost use Rattle.json_grammar.specs.Events.{event_view};
ghost use Rattle.instance_rows.specs.Views.{rows_view};
ghost use Rattle.shape_walk.specs.Reads.{read_of, read_of_text, read_of_key};
ghost use Rattle.instance_shape.specs.Shape.{kind_of};
ghost use Rattle.instance_shape.specs.declared.spot.Kind.TheVariants as kinds;
ghost use Rattle.instance_shape.specs.declared.spot.Spot.TheVariants as spots;
ghost use Rattle.shape_walk.specs.CountEvents.{HaveCounts};
ghost use Rattle.shape_walk.specs.declared.taken.Read.TheVariants as reads;
ghost use Rattle.instance_read.specs.Keeping as spec;
ghost use Rattle.instance_read.specs.Keepers.{kept_of};

use crate::empty::{no_bands, no_rows, no_work, no_workload};
use crate::name_lists::{Names, add_name, no_names};
use fixed_num::Fixed;
use instance_rows::{Bands, FileRows, Load, Work, Workload};
use instance_shape::Spot;
use json_grammar::{Event, Text};
use ordered_keys::TextSet;
use shape_walk::Read;
use std::alloc::{AllocError, Global};
use std::mem;

/// Keeps the rows of a file, and what of them is open. After an `Err` it is of no more use.
#[derive(Drop)]
pub struct Keeper {
    alloc: Global,
    /// What is closed, without the names.
    rows: FileRows,
    names: Names,
    /// The resource that is open.
    bands: Bands,
    /// The numbers of its band that is open.
    numbers: Vec<Fixed>,
    /// The periods of the season that is open.
    season: Vec<u32>,
    /// The intervention that is open.
    work: Work,
    /// Its workload that is open.
    workload: Workload,
    /// The period whose key came last, or 0 outside.
    period: u32,
    /// The start whose key came last, or 0 outside.
    start: u32,
    /// The texts of the exclusion that is open.
    words: Vec<String>,
}

impl Keeper {
    /// Nothing is kept.
    pub fn make(alloc: Global) -> Keeper
        ensures { kept_of result ≡ spec.nothing_kept }
    {
        Keeper {
            alloc,
            rows: no_rows(alloc),
            names: no_names(alloc),
            bands: no_bands(alloc),
            numbers: Vec::new(alloc),
            season: Vec::new(alloc),
            work: no_work(alloc),
            workload: no_workload(alloc),
            period: 0,
            start: 0,
            words: Vec::new(alloc),
        }
    }

    /// Hands out the rows that are filled. The names of a kind become a set only now that all of them are known.
    pub fn take_rows(&mut self) -> Result<FileRows, AllocError>
        ensures { IfOk result (λ rows. rows_view rows ≡ spec.rows_kept (kept_of self.old)) }
    {
        let mut rows = mem::replace(&mut self.rows, no_rows(self.alloc));
        let names = mem::replace(&mut self.names, no_names(self.alloc));
        rows.resources = TextSet::from_vec(self.alloc, names.resources)?;
        rows.seasons = TextSet::from_vec(self.alloc, names.seasons)?;
        rows.interventions = TextSet::from_vec(self.alloc, names.interventions)?;
        rows.exclusions = TextSet::from_vec(self.alloc, names.exclusions)?;
        Ok(rows)
    }

    /// Takes the next event of a text, with its spot and what was read of it.
    pub fn take(&mut self, spot: Spot, event: Event, read: &Read) -> Result<(), AllocError>
        requires { read.now ≡ read_of spot (event_view event) }
        ensures { OnOk result (kept_of self.new ≡ spec.keep spot (event_view event) (kept_of self.old)) }
    {
        match event {
            Event::Num { .. } => self.take_number(spot, read),
            Event::Text { text, .. } => self.take_text(spot, text, read),
            Event::Key { text, .. } => self.take_key(spot, text, read),
            Event::Finish { .. } => self.take_finish(spot),
            Event::Begin { .. } | Event::Null { .. } | Event::Bool { .. } => Ok(()),
        }
    }

    /// Takes the next event of a text, which is a number at the spot and whose value is exactly the count.
    #[inline]
    pub fn take_count(&mut self, spot: Spot, count: Fixed) -> Result<(), AllocError>
        ensures { (at : ℕ) (token : List ℕ) → read_of spot (json.Event.number at token) ≡ reads.Count count false
            → OnOk result (kept_of self.new ≡ spec.keep spot (json.Event.number at token) (kept_of self.old)) }
    {
        match spot {
            // the case of most numbers by far
            Spot::RiskNumber => self.work.risks.add(count, false),
            _ => self.add_count(spot, count, false),
        }
    }

    /// Takes the next events of a text, which are numbers at the spot and whose values are exactly the counts.
    pub fn take_counts(&mut self, spot: Spot, counts: &[i64]) -> Result<(), AllocError>
        ensures { (numbers : List json.Event) → kind_of spot ≡ kinds.Count → HaveCounts numbers counts.now
            → OnOk result (kept_of self.new ≡ spec.keep_each spot numbers (kept_of self.old)) }
    {
        match spot {
            // the case of most numbers by far
            Spot::RiskNumber => self.work.risks.add_all(counts),
            _ => self.add_counts(spot, counts),
        }
    }

    /// Takes the next event of a text, which is a key at the spot that is read as the number: a period or start.
    pub fn take_number_key(&mut self, spot: Spot, number: u32) -> Result<(), AllocError>
        ensures { (at end : ℕ) (text : List ℕ) → read_of spot (json.key at end text) ≡ reads.Whole number
            → OnOk result (kept_of self.new ≡ spec.keep spot (json.key at end text) (kept_of self.old)) }
    {
        match spot {
            Spot::WorkloadResource | Spot::Risk => {
                self.period = number;
                Ok(())
            }
            Spot::WorkloadPeriod => {
                self.start = number;
                Ok(())
            }
            Spot::RiskPeriod => self.work.risks.open(self.period, number),
            _ => Ok(()),
        }
    }

    /// Keeps counts one by one.
    fn add_counts(&mut self, spot: Spot, counts: &[i64]) -> Result<(), AllocError>
        ensures { OnOk result (kept_of self.new ≡ spec.keep_counts spot counts.now (kept_of self.old)) }
    {
        'counts: for count in counts {
            self.add_count(spot, Fixed::from(*count), false)?;
        }
        Ok(())
    }

    /// Counts a number that is rounded.
    fn count_rounded(&mut self, rounded: bool) -> Result<(), AllocError>
        ensures { OnOk result (kept_of self.new ≡ record (kept_of self.old) {
          rounded = cond rounded ((kept_of self.old).rounded + 1) (kept_of self.old).rounded;
        }) }
    {
        if !rounded {
            return Ok(());
        }
        match self.rows.rounded.checked_add(1) {
            Some(count) => {
                self.rows.rounded = count;
                Ok(())
            }
            None => Err(AllocError),
        }
    }

    /// Keeps a count.
    fn add_count(&mut self, spot: Spot, count: Fixed, rounded: bool) -> Result<(), AllocError>
        ensures { (at : ℕ) (x : List ℕ)
            → OnOk result
            (kept_of self.new
            ≡ spec.keep_rows spot (json.Event.number at x) (reads.Count count rounded) (kept_of self.old)) }
    {
        match spot {
            Spot::RiskNumber => self.work.risks.add(count, rounded),
            Spot::WorkloadNumber => {
                self.workload.loads.push(Load {
                    period: self.period,
                    start: self.start,
                    load: count,
                })?;
                Ok(())
            }
            Spot::BandLimit => {
                self.numbers.push(count)?;
                Ok(())
            }
            _ => Ok(()),
        }
    }

    /// Keeps a whole number.
    fn add_whole(&mut self, spot: Spot, number: u32) -> Result<(), AllocError>
        ensures { (at : ℕ) (x : List ℕ)
            → OnOk result
            (kept_of self.new ≡ spec.keep_rows spot (json.Event.number at x) (reads.Whole number) (kept_of self.old)) }
    {
        match spot {
            Spot::T => {
                self.rows.periods = number;
                Ok(())
            }
            Spot::Scenario => {
                self.rows.scenarios.push(number)?;
                Ok(())
            }
            Spot::SeasonPeriod => {
                self.season.push(number)?;
                Ok(())
            }
            Spot::Tmax => {
                self.work.tmax = number;
                Ok(())
            }
            Spot::Duration => {
                self.work.durations.push(number)?;
                Ok(())
            }
            _ => Ok(()),
        }
    }

    /// Keeps a number of 10^-6.
    fn put_millionths(&mut self, spot: Spot, number: u32)
        ensures { (at : ℕ) (x : List ℕ) → kept_of self.new ≡ spec.keep_rows spot (json.Event.number at
            x) (reads.Millionths number) (kept_of self.old) }
    {
        match spot {
            Spot::Alpha => self.rows.alpha = number,
            Spot::Quantile => self.rows.quantile = number,
            _ => {}
        }
    }

    /// Keeps what was read of a number, or of a text that is none of an exclusion's.
    fn take_number(&mut self, spot: Spot, read: &Read) -> Result<(), AllocError>
        ensures { (at : ℕ) (x : List ℕ)
            → OnOk result
            (kept_of self.new ≡ spec.keep_read spot (json.Event.number at x) read.now (kept_of self.old)) }
    {
        match read {
            Read::Count { count, rounded } => {
                self.count_rounded(*rounded)?;
                self.add_count(spot, *count, *rounded)
            }
            Read::Whole(number) => self.add_whole(spot, *number),
            Read::Millionths(number) => {
                self.put_millionths(spot, *number);
                Ok(())
            }
            Read::Nothing => Ok(()),
        }
    }

    /// Keeps a text that is no key.
    fn take_text(&mut self, spot: Spot, text: Text, read: &Read) -> Result<(), AllocError>
        requires { read.now ≡ read_of_text (kind_of spot) text }
        ensures { (at end : ℕ)
            → OnOk result
            (kept_of self.new ≡ spec.keep_read spot (json.Event.text at end text) read.now (kept_of self.old)) }
    {
        match spot {
            Spot::Word => {
                self.words.push(text.into_string())?;
                Ok(())
            }
            _ => self.take_number(spot, read),
        }
    }

    /// Begins a list of risks in the period whose key came last.
    fn open_risks(&mut self, read: &Read) -> Result<(), AllocError>
        ensures { (at end : ℕ) (k : List ℕ)
            → OnOk result
            (kept_of self.new ≡ spec.keep_rows spots.RiskPeriod (json.key at end k) read.now (kept_of self.old)) }
    {
        match read {
            Read::Whole(start) => self.work.risks.open(self.period, *start),
            _ => Ok(()),
        }
    }

    /// Keeps a key.
    fn take_key(&mut self, spot: Spot, text: Text, read: &Read) -> Result<(), AllocError>
        requires { read.now ≡ read_of_key (kind_of spot) text }
        ensures { (at end : ℕ)
            → OnOk result (kept_of self.new ≡ spec.keep_rows spot (json.key at end text) read.now (kept_of self.old)) }
    {
        match spot {
            Spot::Resources => add_name(&mut self.names.resources, text.into_string()),
            Spot::Seasons => add_name(&mut self.names.seasons, text.into_string()),
            Spot::Interventions => add_name(&mut self.names.interventions, text.into_string()),
            Spot::Exclusions => add_name(&mut self.names.exclusions, text.into_string()),
            Spot::Workload => {
                self.workload.resource = text.into_string();
                Ok(())
            }
            Spot::WorkloadResource | Spot::Risk => {
                self.period = number_or(read, self.period);
                Ok(())
            }
            Spot::WorkloadPeriod => {
                self.start = number_or(read, self.start);
                Ok(())
            }
            Spot::RiskPeriod => self.open_risks(read),
            _ => Ok(()),
        }
    }

    /// Puts the workload that is open among those of its intervention.
    fn close_workload(&mut self) -> Result<(), AllocError>
        ensures { (at : ℕ)
            → OnOk result
            (kept_of self.new
            ≡ spec.keep_rows spots.WorkloadResource (json.finish at) reads.Nothing (kept_of self.old)) }
    {
        let workload = mem::replace(&mut self.workload, no_workload(self.alloc));
        self.work.workloads.push(workload)?;
        self.period = 0;
        self.start = 0;
        Ok(())
    }

    /// Keeps a closing bracket or brace: what was open is put among what is closed.
    fn take_finish(&mut self, spot: Spot) -> Result<(), AllocError>
        ensures { (at : ℕ)
            → OnOk result (kept_of self.new ≡ spec.keep_rows spot (json.finish at) reads.Nothing (kept_of self.old)) }
    {
        match spot {
            Spot::Max => {
                self.bands.most = mem::replace(&mut self.numbers, Vec::new(self.alloc));
                Ok(())
            }
            Spot::Min => {
                self.bands.least = mem::replace(&mut self.numbers, Vec::new(self.alloc));
                Ok(())
            }
            Spot::Resource => {
                let bands = mem::replace(&mut self.bands, no_bands(self.alloc));
                self.rows.bands.push(bands)?;
                Ok(())
            }
            Spot::Season => {
                let season = mem::replace(&mut self.season, Vec::new(self.alloc));
                self.rows.season_periods.push(season)?;
                Ok(())
            }
            Spot::WorkloadResource => self.close_workload(),
            Spot::Risk => {
                self.period = 0;
                Ok(())
            }
            Spot::Intervention => {
                let work = mem::replace(&mut self.work, no_work(self.alloc));
                self.rows.works.push(work)?;
                Ok(())
            }
            Spot::Exclusion => {
                let words = mem::replace(&mut self.words, Vec::new(self.alloc));
                self.rows.exclusion_words.push(words)?;
                Ok(())
            }
            _ => Ok(()),
        }
    }
}

/// The whole number that was read, if there is one, or an older one.
fn number_or(read: &Read, old: u32) -> u32
    ensures { result ≡ spec.with_whole spec.put read.now old }
{
    match read {
        Read::Whole(number) => *number,
        _ => old,
    }
}
