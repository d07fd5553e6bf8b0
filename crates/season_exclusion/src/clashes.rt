//! The broken exclusions of starts that change: contracts see the starts beside what is kept of them.
ghost use Rattle.std.specs.Prelude.{◌≡◌, ◌<◌, length, map, slice_index, slice_set, Some, IfOk};
ghost use Rattle.instance_model.specs.Tables.{Tables};
ghost use Rattle.instance_model.specs.Plans.{AreAllowedStarts};
ghost use Rattle.instance_model.specs.Keys.{clash_count};
ghost use Rattle.season_exclusion.specs.KeptClashes.{IsOver};

use crate::broken::{broken_flags, count_set, retest};
use crate::named::{Named, named_lists};
use instance_model::Instance;
use std::alloc::{AllocError, Global};
use std::marker::Model;

/// Starts, with the exclusions that they break: contracts see the starts beside what is kept of them.
#[derive(Drop)]
pub struct Clashes {
    starts: Vec<u32>,
    broken: Vec<bool>,
    count: u64,
    named: Vec<Named>,
}

impl Model for Clashes {
    ghost use Rattle.season_exclusion.specs.KeptClashes.{KeptClashes};

    ghost Value = { KeptClashes };

    ghost view = { λ k. record {
      starts = k.starts.items;
      broken = k.broken.items;
      count = k.count;
      named = k.named.items;
    } };
}

impl Clashes {
    /// The broken exclusions of these starts. Takes memory, as no other call does.
    pub fn make(alloc: Global, inst: &Instance, starts: &[u32]) -> Result<Clashes, AllocError>
        requires { AreAllowedStarts inst.now starts.now }
        ensures over { IfOk result (IsOver inst.now) }
        ensures starts { IfOk result (λ clashes. clashes.starts ≡ starts.now) }
    {
        let broken = broken_flags(alloc, inst, starts)?;
        let count = count_set(&broken);
        let named = named_lists(alloc, inst)?;
        let starts = starts.to_vec(alloc)?;
        Ok(Clashes {
            starts,
            broken,
            count,
            named,
        })
    }

    /// Takes over the new start of intervention `i`. Tests each exclusion that names it once, and no other.
    pub fn reset_for(&mut self, inst: &Instance, i: u32, starts: &[u32])
        requires over { IsOver inst.now self.old }
        requires number { i < length inst.now.names }
        requires allowed { AreAllowedStarts inst.now starts.now }
        requires but_for { starts.now ≡ slice_set self.old.starts i (slice_index starts.now i) }
        ensures over { IsOver inst.now self.new }
        ensures starts { self.new.starts ≡ starts.now }
    {
        self.starts[i as usize] = starts[i as usize];
        let named = &self.named[i as usize];
        self.count = retest(inst, starts, named.as_slice(), &mut self.broken, self.count);
    }

    /// How many exclusions are broken.
    pub fn count(&self) -> u64
        ensures { (inst : Tables) → IsOver inst self.now → result ≡ clash_count inst (map Some self.now.starts) }
    {
        self.count
    }
}
