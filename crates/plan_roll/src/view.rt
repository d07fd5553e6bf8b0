//! The rolled instance, seen over the instance without a copy.
ghost use Rattle.std.specs.Prelude.{◌≡◌, length};
ghost use Rattle.plan_roll.specs.Rolled.{may_start as may_start_of};

use fixed_num::Fixed;
use instance_model::Instance;
use instance_writer::InstanceView;

/// Whether an intervention with this start so far, or none, may start at `s`: a kept start stays, any other one is from
/// the period on.
#[tactic(auto, using(std::proofs::lemmas::Bool::Decides::nat_tests), unfolding(crate::specs::Rolled::may_start))]
fn may_start(period: u32, begun: Option<u32>, s: u32) -> bool
    ensures { result ≡ may_start_of period begun s }
{
    let Some(begun) = begun else {
        return period <= s;
    };
    if begun < period {
        s == begun
    } else {
        period <= s
    }
}

/// What is left of an instance from a period on, after a plan so far.
#[derive(Clone, Copy)]
pub(crate) struct Rolled<'a> {
    pub(crate) inst: &'a Instance,
    pub(crate) plan: &'a [Option<u32>],
    pub(crate) period: u32,
    ghost each: { length plan.now ≡ length inst.now.names },
}

impl InstanceView for Rolled<'_> {
    ghost use Rattle.plan_roll.specs.Rolled.{rolled};

    ghost base = { λ r. r.inst.now };

    ghost tables = { λ r. rolled r.inst.now r.plan.now r.period };

    fn instance(&self) -> &Instance {
        self.inst
    }

    fn delta(&self, i: u32, s: u32) -> u32 {
        if may_start(self.period, self.plan[i as usize], s) {
            self.inst.delta(i, s)
        } else {
            self.inst.periods() + 1
        }
    }

    fn load(&self, i: u32, s: u32, c: u32, t: u32) -> Option<Fixed> {
        self.inst.fits();
        let load = self.inst.load(i, s, c, t);
        if load.count() == 0 { None } else { Some(load) }
    }
}
