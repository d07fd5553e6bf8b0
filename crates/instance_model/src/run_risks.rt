//! The risks of all runs, as tables or as they were read from a file.
ghost use Rattle.std.specs.Prelude.{◌≡◌, ◌<◌, ◌≤◌, All, length};
ghost use Rattle.std.specs.List.{slice_range};
ghost use Rattle.instance_model.specs.RiskNumbers.{numbers_of};

use crate::risk_lists::RiskLists;
use crate::risk_numbers::RiskNumbers;
use fixed_num::Fixed;

/// The risks of all runs, and which lists of them have a number that was changed by rounding.
#[derive(Drop)]
pub enum RunRisks {
    /// Numbers by intervention, allowed start, period of the run, scenario; flags by intervention, allowed start,
    /// period of the run.
    InOrder {
        numbers: Vec<Fixed>,
        soft: Vec<bool>,
    },
    /// By intervention.
    AsRead(Vec<ReadRisks>),
}

/// The lists of risks of an intervention in the order of a file, and which of them its allowed runs take.
#[derive(Drop)]
pub struct ReadRisks {
    pub lists: RiskLists,
    /// By allowed start, then period of the run, the number of the list.
    pub order: Vec<usize>,
    ghost known: { All (λ k. k < length lists) order.items },
}

impl ReadRisks {
    ghost use Rattle.std.specs.Prelude.{◌≡◌, ◌<◌, length, slice_index_or};
    ghost use Rattle.instance_model.specs.RunRisks.{no_list, runs_of};

    /// The risks of run period `n`, from 0, in the order of starts, then periods.
    pub(crate) fn numbers(&self, n: usize) -> RiskNumbers<'_>
        requires { n < length (runs_of self.now) }
        ensures { numbers_of result ≡ (slice_index_or (runs_of self.now) n no_list).values }
    {
        self.lists.list(self.order[n]).numbers
    }

    /// Whether one of these risks was changed by rounding.
    pub(crate) fn soft(&self, n: usize) -> bool
        requires { n < length (runs_of self.now) }
        ensures { result ≡ (slice_index_or (runs_of self.now) n no_list).soft }
    {
        self.lists.list(self.order[n]).soft
    }
}

/// Numbers from a place to another, which are lent.
pub(crate) fn part(numbers: &[Fixed], from: usize, to: usize) -> RiskNumbers<'_>
    requires start { from ≤ to }
    requires end { to ≤ length numbers.now }
    ensures { numbers_of result ≡ slice_range numbers.now from to }
{
    RiskNumbers::Wide(&numbers[from..to])
}
