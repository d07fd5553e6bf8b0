//! The lists of risks of an intervention, in the order of the file.

ghost use Rattle.std.specs.Prelude.{◌≡◌, ◌==◌, ◌<◌, ◌+◌, [], ◌∷◌, ◌++◌, false, drop, length, slice_index_or, OnOk};
ghost use Rattle.std.specs.Prelude.{OnErr};
ghost use Rattle.instance_model.specs.RiskLists.{RiskRow};
ghost use Rattle.instance_model.specs.RiskLists.{add_all_to_last, add_to_last, end_before, last_first, last_soft};
ghost use Rattle.instance_model.specs.RiskLists.{list_view};

use crate::risk_numbers::RiskNumbers;
use crate::risk_storage::{add_counts, add_number, part};
use fixed_num::Fixed;
use std::alloc::{AllocError, Global};
use std::marker::Model;

/// The keys of a list, whether one of its numbers was rounded, and where its numbers begin: places count through, the
/// wide numbers behind the narrow ones. They end where those of the next list begin.
#[derive(Clone, Copy, Debug)]
pub struct RiskHead {
    period: u32,
    start: u32,
    first: usize,
    soft: bool,
}

/// The risks in a period, at a start: one for each scenario. Periods and starts count from 1.
#[derive(Clone, Copy, Debug)]
pub struct RiskList<'a> {
    pub period: u32,
    pub start: u32,
    pub numbers: RiskNumbers<'a>,
    /// One of the numbers was changed by rounding.
    pub soft: bool,
}

/// Lists of risks. All their numbers stand behind each other: a number takes 8 bytes, and from the first list on that
/// has one which doesn't fit, 16. Each list stands whole among the narrow or the wide ones.
#[derive(Drop)]
pub struct RiskLists {
    heads: Vec<RiskHead>,
    narrow: Vec<i64>,
    wide: Vec<Fixed>,
}

impl Model for RiskLists {
    ghost use Rattle.std.specs.Prelude.{List, ◌++◌};
    ghost use Rattle.instance_model.specs.RiskLists.{RiskRow};
    ghost use Rattle.instance_model.specs.RiskLists.{lists_of, AreStored};

    ghost Value = { List RiskRow };

    ghost view = { λ l. lists_of l.heads.items (l.narrow.items ++ l.wide.items) };

    ghost invariant = { λ l. AreStored l.heads.items l.narrow.items l.wide.items };
}

impl RiskLists {
    /// No lists.
    pub fn new(alloc: Global) -> RiskLists
        ensures { result ≡ [] }
    {
        RiskLists {
            heads: Vec::new(alloc),
            narrow: Vec::new(alloc),
            wide: Vec::new(alloc),
        }
    }

    /// Begins a list, which is empty as yet.
    pub fn open(&mut self, period: u32, start: u32) -> Result<(), AllocError>
        ensures ok { OnOk result (self.new ≡ self.old ++ record {
          period = period;
          start = start;
          values = [];
          soft = false;
        } ∷ []) }
        ensures err { OnErr result (self.new ≡ self.old) }
    {
        let first = self.narrow.len() + self.wide.len();
        self.heads.push(RiskHead {
            period,
            start,
            first,
            soft: false,
        })?;
        Ok(())
    }

    /// Adds a number to the last list; `rounded` says whether reading has changed it. Where there is no list, nothing
    /// is added.
    pub fn add(&mut self, number: Fixed, rounded: bool) -> Result<(), AllocError>
        ensures ok { OnOk result (self.new ≡ add_to_last number rounded self.old) }
        ensures err { OnErr result (self.new ≡ self.old) }
    {
        let first = first_of_last(&self.heads, self.narrow.len());
        add_number(&mut self.narrow, &mut self.wide, first, number)?;
        if rounded {
            mark_last(&mut self.heads);
        }
        Ok(())
    }

    /// Adds numbers that reading has not changed to the last list.
    pub fn add_all(&mut self, counts: &[i64]) -> Result<(), AllocError>
        ensures ok { OnOk result (self.new ≡ add_all_to_last counts.now self.old) }
        ensures err { OnErr result (self.new ≡ self.old) }
    {
        add_counts(&mut self.narrow, &mut self.wide, counts)
    }

    /// How many lists there are.
    pub fn len(&self) -> usize
        ensures { result ≡ length self.now }
    {
        self.heads.len()
    }

    pub fn is_empty(&self) -> bool
        ensures { result ≡ (length self.now == 0) }
    {
        self.heads.is_empty()
    }

    /// List `k`, from 0, in the order of the file.
    pub fn list(&self, k: usize) -> RiskList<'_>
        requires { k < length self.now }
        ensures { (d : RiskRow) → list_view result ≡ slice_index_or self.now k d }
    {
        let head = self.heads[k];
        let end = end_of(&self.heads, k, self.narrow.len() + self.wide.len());
        RiskList {
            period: head.period,
            start: head.start,
            numbers: part(&self.narrow, &self.wide, head.first, end),
            soft: head.soft,
        }
    }
}

/// Where the numbers of list `k` end, of so many.
fn end_of(heads: &[RiskHead], k: usize, count: usize) -> usize
    requires { k < length heads.now }
    ensures { result ≡ end_before (drop (k + 1) heads.now) count }
{
    match heads.get(k + 1) {
        Some(next) => next.first,
        None => count,
    }
}

/// Where the last list begins, or `place` where there is none.
fn first_of_last(heads: &[RiskHead], place: usize) -> usize
    ensures { result ≡ last_first heads.now place }
{
    match heads.last() {
        Some(head) => head.first,
        None => place,
    }
}

/// Marks the last list as soft.
fn mark_last(heads: &mut Vec<RiskHead>)
    ensures { heads.new.items ≡ last_soft heads.old.items }
{
    let count = heads.len();
    if 0 < count {
        heads[count - 1].soft = true;
    }
}
