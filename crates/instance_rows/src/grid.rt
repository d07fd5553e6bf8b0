//! Where the list of risks of a start and a period is.

ghost use Rattle.std.specs.Prelude.{◌≡◌, ◌+◌, ◌-◌, ◌*◌, ◌<◌, ◌≤◌, List, None, Some, IfOk, IfSome, IfNone, is_none};
ghost use Rattle.std.specs.Prelude.{if◌then◌else◌, slice_index_or, slice_set, vec_len};
ghost use Rattle.instance_model.specs.RiskLists.{RiskRow};
ghost use Rattle.instance_rows.specs.Grid.{IsGridOf, place_of};

use instance_model::RiskLists;
use std::alloc::{AllocError, Global};

/// For each start, then period, the number of the first list there is.
#[derive(Drop)]
pub struct Grid {
    pub starts: u32,
    pub periods: u32,
    pub places: Vec<Option<usize>>,
}

impl Grid {
    /// Of starts and periods from 1 to so many. Lists of others are left out.
    pub fn of(
        alloc: Global,
        lists: &RiskLists,
        starts: u32,
        periods: u32,
    ) -> Result<Grid, AllocError>
        requires starts { starts ≤ 512 }
        requires periods { periods ≤ 512 }
        ensures starts { IfOk result (λ g. g.starts ≡ starts) }
        ensures periods { IfOk result (λ g. g.periods ≡ periods) }
        ensures places { IfOk result (IsGridOf lists.now) }
    {
        let size = starts as usize * periods as usize;
        let mut places = vec![in alloc; None; size]?;
        for k in 0..lists.len() {
            let list = lists.list(k);
            if let Some(place) = place_in(starts, periods, list.start, list.period) {
                fill(&mut places, place, k);
            }
        }
        Ok(Grid {
            starts,
            periods,
            places,
        })
    }

    /// The number of the first list at a start in a period, from 0.
    pub fn find(&self, start: u32, period: u32) -> Option<usize>
        requires from { 1 ≤ start }
        requires to { start ≤ self.now.starts }
        requires first { 1 ≤ period }
        requires last { period ≤ self.now.periods }
        requires known { (risks : List RiskRow) × IsGridOf risks self.now }
        ensures { (risks : List RiskRow) → IsGridOf risks self.now → result ≡ place_of risks start period }
    {
        match place_in(self.starts, self.periods, start, period) {
            Some(place) => self.places[place],
            None => None,
        }
    }
}

/// The place of a start and a period in a grid of so many, if they are in it.
fn place_in(starts: u32, periods: u32, start: u32, period: u32) -> Option<usize>
    requires starts { starts ≤ 512 }
    requires periods { periods ≤ 512 }
    ensures value { IfSome result (λ p. p ≡ (start - 1) * periods + (period - 1)) }
    ensures within { IfSome result (λ p. p < starts * periods) }
    ensures ranges { IfSome result (λ _. (1 ≤ start) × (start ≤ starts) × (1 ≤ period) × (period ≤ periods)) }
    ensures none { IfNone result (1 ≤ start → start ≤ starts → 1 ≤ period → period ≤ periods → ⊥) }
{
    if start == 0 || start > starts || period == 0 || period > periods {
        return None;
    }
    Some((start as usize - 1) * periods as usize + (period as usize - 1))
}

/// Puts a number at a place that has none.
fn fill(places: &mut Vec<Option<usize>>, place: usize, k: usize)
    requires { place < vec_len places.old }
    ensures { places.new.items ≡ (if is_none (slice_index_or places.old.items place None)
        then slice_set places.old.items place (Some k) else places.old.items) }
{
    if places[place].is_none() {
        places[place] = Some(k);
    }
}
