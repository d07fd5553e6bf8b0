//! Which call is to fail.
ghost use Rattle.std.specs.Prelude.{◌≡◌, ◌<◌, ◌==◌, ◌&&◌, slice_set};
ghost use Rattle.std.specs.List.{list_any};
ghost use Rattle.plan_desk.specs.Mem.{next_of, number_of};

use crate::DeskCall;
use crate::files::Listed;

/// Counts a call of this kind, and says whether it is to fail.
pub fn is_listed(made: &mut [u64; 6], listed: &[Listed], call: DeskCall) -> bool
    ensures due { result
        ≡ list_any (λ l. (number_of l.call == number_of call) && (l.nth == next_of made.old call)) listed.now }
    ensures counted { made.new ≡ slice_set made.old (number_of call) (next_of made.old call) }
{
    let kind = number(call);
    let had = made[kind];
    let nth = had.saturating_add(1);
    made[kind] = nth;
    any_listed(listed, kind, nth)
}

fn any_listed(listed: &[Listed], kind: usize, nth: u64) -> bool
    ensures { result ≡ list_any (λ l. (number_of l.call == kind) && (l.nth == nth)) listed.now }
{
    listed
        .iter()
        .any(|l| number(l.call) == kind && u64::from(l.nth) == nth)
}

fn number(call: DeskCall) -> usize
    ensures value { result ≡ number_of call }
    ensures small { result < 6 }
{
    match call {
        DeskCall::TakeIn => 0,
        DeskCall::Read => 1,
        DeskCall::PutOut => 2,
        DeskCall::Write => 3,
        DeskCall::FinishOut => 4,
        DeskCall::Say => 5,
    }
}
