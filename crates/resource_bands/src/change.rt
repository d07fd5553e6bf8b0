//! A change of loads by a run.
ghost use Rattle.std.specs.Prelude.{◌≡◌, ◌<◌, ◌^◌, unsigned_abs};
ghost use Rattle.resource_bands.specs.Gaps.{signed, start_after};

use fixed_num::{Amount, Fixed};

/// Whether a run is put on board or taken off.
#[derive(Clone, Copy)]
pub(crate) enum Change {
    Add,
    Take,
}

impl Change {
    /// A workload of the run, as it changes a load.
    pub(crate) fn of(self, work: Fixed) -> Amount
        ensures value { result ≡ signed self work }
        ensures small { unsigned_abs result < 10 ^ 20 }
    {
        let work = work.count();
        match self {
            Change::Add => Amount::of(work),
            Change::Take => Amount::of(-work),
        }
    }

    /// The start on board after the change, where the run is that at start `s`.
    pub(crate) fn start(self, s: u32) -> Option<u32>
        ensures { result ≡ start_after self s }
    {
        match self {
            Change::Add => Some(s),
            Change::Take => None,
        }
    }
}
