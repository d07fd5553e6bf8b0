//! Numbers without a sign and an exponent that stand whole in a buffer.
ghost use Rattle.std.specs.Prelude.{◌≡◌, ◌⊎◌, IfSome};
ghost use Rattle.json_machine.specs.Views.{phase_of};
ghost use Rattle.json_machine.specs.NumberRuns.{EndsNumber, BeginsNumber};

use crate::phase::Phase;
use json_grammar::digit_count;

/// The bytes in front that go on with a number, and where in it they end.
#[derive(Clone, Copy, Drop)]
pub(crate) struct NumberRun {
    pub length: usize,
    pub phase: Phase,
}

/// The number in front, as far as its digits go.
pub(crate) fn number_run(bytes: &[u8]) -> Option<NumberRun>
    ensures { IfSome result (λ r. BeginsNumber bytes.now r.length (phase_of r.phase)) }
{
    let whole = whole_run(bytes)?;
    let fraction = fraction_run(whole.phase, &bytes[whole.length..])?;
    Some(NumberRun {
        length: whole.length + fraction.length,
        phase: fraction.phase,
    })
}

/// The digits in front that may stand before a point.
fn whole_run(bytes: &[u8]) -> Option<NumberRun>
    ensures begins { IfSome result (λ r. BeginsNumber bytes.now r.length (phase_of r.phase)) }
    ensures phase { IfSome result (λ r. (r.phase ≡ Phase.LoneZero) ⊎ (r.phase ≡ Phase.Whole)) }
{
    let length = digit_count(bytes);
    if length == 0 {
        return None;
    }
    if bytes[0] == b'0' {
        return Some(NumberRun {
            length: 1,
            phase: Phase::LoneZero,
        });
    }
    Some(NumberRun {
        length,
        phase: Phase::Whole,
    })
}

/// A point in front with its digits, where there is a point.
fn fraction_run(phase: Phase, bytes: &[u8]) -> Option<NumberRun>
    requires { (phase ≡ Phase.LoneZero) ⊎ (phase ≡ Phase.Whole) }
    ensures { IfSome result (λ r. EndsNumber (phase_of phase) bytes.now r.length (phase_of r.phase)) }
{
    if bytes.is_empty() || bytes[0] != b'.' {
        return Some(NumberRun { length: 0, phase });
    }
    let length = digit_count(&bytes[1..]);
    if length == 0 {
        return None;
    }
    Some(NumberRun {
        length: 1 + length,
        phase: Phase::Fraction,
    })
}
