//! By how much a change raises the score.

use crate::change::Change;
use crate::period::Outlook;
use crate::run::Run;
use crate::scan::sum_after;
use crate::state::State;

impl<'a> State<'a> {
    /// Adds what a run that comes adds to an outlook, with the quantile that is its least.
    #[inline]
    fn add_piece(&mut self, run: Run, t: usize, outlook: &mut Outlook, least: &mut i64) {
        if run.meets(t) {
            let piece = self.rows.piece(run, t);
            outlook.total = outlook.total.wrapping_add(piece.sum);
            outlook.rise = outlook.rise.wrapping_add(piece.greatest);
            *least = least.wrapping_add(piece.least);
        }
    }

    /// Takes off what a run that goes adds.
    #[inline]
    fn take_piece(&mut self, run: Run, t: usize, outlook: &mut Outlook, least: &mut i64) {
        if run.meets(t) {
            let piece = self.rows.piece(run, t);
            outlook.total = outlook.total.wrapping_sub(piece.sum);
            outlook.rise = outlook.rise.wrapping_sub(piece.least);
            *least = least.wrapping_sub(piece.greatest);
        }
    }

    /// By how much a change raises the value of period `t` at least.
    #[inline]
    fn least_rise_in(&mut self, change: &Change, t: usize) -> i64 {
        let Some(period) = self.periods.get(t.wrapping_sub(1)) else {
            return 0;
        };
        let period = *period;
        let mut least = period.quantile;
        let mut outlook = Outlook {
            total: period.total,
            rise: 0,
            value: 0,
        };
        self.add_piece(change.come, t, &mut outlook, &mut least);
        self.take_piece(change.gone, t, &mut outlook, &mut least);
        self.add_piece(change.second_come, t, &mut outlook, &mut least);
        self.take_piece(change.second_gone, t, &mut outlook, &mut least);
        outlook.value = self
            .units
            .value(i64::from(period.scenarios), outlook.total, least);
        if let Some(entry) = self.outlooks.get_mut(t.wrapping_sub(1)) {
            *entry = outlook;
        }
        outlook.value.wrapping_sub(period.value)
    }

    /// How much more it raises that value than it does at least.
    #[inline]
    fn rest_in(&mut self, change: &Change, t: usize) -> i64 {
        let Some(period) = self.periods.get(t.wrapping_sub(1)) else {
            return 0;
        };
        let Some(outlook) = self.outlooks.get(t.wrapping_sub(1)) else {
            return 0;
        };
        let slots = self.rows.slots(change, t);
        let first = period.first.min(self.ranked.len());
        let past = first
            .saturating_add(period.scenarios as usize)
            .min(self.ranked.len());
        let quantile = sum_after(
            &self.ranked[first.min(past)..past],
            self.rows.deltas(slots),
            outlook.rise,
            period.high,
            self.sums.as_mut_slice(),
        );
        let value = self
            .units
            .value(i64::from(period.scenarios), outlook.total, quantile);
        value.wrapping_sub(outlook.value)
    }

    /// By how much a change raises the score at least.
    #[inline]
    fn least_rise(&mut self, change: &Change) -> i64 {
        let new = change.new_span();
        let old = change.old_span();
        let mut rise: i64 = 0;
        for t in new.from..new.past {
            rise = rise.wrapping_add(self.least_rise_in(change, t));
        }
        for t in old.from..old.past {
            if !new.has(t) {
                rise = rise.wrapping_add(self.least_rise_in(change, t));
            }
        }
        rise
    }

    /// By how much a change raises the score, if that is below `limit`.
    pub(crate) fn rise_below(&mut self, change: &Change, limit: i64) -> Option<i64> {
        let mut rise = self.least_rise(change);
        if rise >= limit {
            return None;
        }
        if self.units.has_mean_alone() {
            return Some(rise);
        }
        let new = change.new_span();
        let old = change.old_span();
        for t in new.from..new.past {
            rise = rise.wrapping_add(self.rest_in(change, t));
            if rise >= limit {
                return None;
            }
        }
        for t in old.from..old.past {
            if !new.has(t) {
                rise = rise.wrapping_add(self.rest_in(change, t));
                if rise >= limit {
                    return None;
                }
            }
        }
        Some(rise)
    }
}
