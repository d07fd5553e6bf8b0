//! What is read of a value at its spot, and what is wrong with it.

ghost use Rattle.std.specs.Prelude.{◌≡◌, ℕ, Bool, ◌++◌, ◌&&◌, false, not, is_none, is_some, nat_le, option_map};
ghost use Rattle.std.specs.Prelude.{unwrap_or};
ghost use Rattle.json_grammar.specs.Tree as json;
ghost use Rattle.decimal_numbers.specs.Exact.{fixed};
ghost use Rattle.instance_model.specs.declared.limits.Limits.{Limits as Sizes};
ghost use Rattle.instance_shape.specs.declared.fault.Flaw.TheVariants as flaws;
ghost use Rattle.instance_shape.specs.Shape as shape;
ghost use Rattle.instance_shape.specs.ShapeFaults.{own_faults, whole_limit, outside, where_so};
ghost use Rattle.shape_walk.specs.Flaws.{first_flaw};
ghost use Rattle.shape_walk.specs.Machine.{begin_faults};
ghost use Rattle.shape_walk.specs.Reads.{read_of_number, read_of_text, count_read, whole_read, millionths_read};

use crate::judged::Judged;
use crate::taken::{Read, Taken};
use decimal_numbers::{fixed_of, millionths_of, whole_of_number, whole_of_text};
use instance_model::Limits;
use instance_shape::{Flaw, Kind, Spot, Which, is_name, kind_of};
use json_grammar::NumText;

/// What is wrong with an object or a list that begins at a spot.
#[tactic(auto, unfolding(decimal_numbers::specs::Exact::whole))]
pub fn begin_flaw(spot: Spot, object: bool) -> Option<Flaw>
    ensures { (limits : Sizes) (at : ℕ) → result ≡ first_flaw (begin_faults limits object spot at) }
{
    let has_shape = match kind_of(spot) {
        Kind::Record | Kind::Names | Kind::Numbers => object,
        Kind::List | Kind::Triple => !object,
        Kind::Anything => true,
        _ => false,
    };
    if has_shape { None } else { Some(Flaw::Shape) }
}

/// What is wrong with `null`, `true` or `false` at a spot.
#[tactic(auto, unfolding(decimal_numbers::specs::Exact::whole))]
pub fn word_flaw(spot: Spot) -> Option<Flaw>
    ensures null { (limits : Sizes) (at : ℕ) → result ≡ first_flaw (own_faults limits spot at json.Node.null) }
    ensures boolean { (limits : Sizes) (at : ℕ) (b : Bool) → result
        ≡ first_flaw (own_faults limits spot at (json.Node.boolean b)) }
{
    match kind_of(spot) {
        Kind::Anything => None,
        _ => Some(Flaw::Shape),
    }
}

/// The limit on a whole number at a spot.
fn whole_limit(limits: &Limits, spot: Spot) -> Option<(u64, Which)>
    ensures { result ≡ whole_limit limits.now spot }
{
    match spot {
        Spot::T => Some((limits.periods, Which::Periods)),
        Spot::Scenario => Some((limits.scenarios, Which::Scenarios)),
        _ => None,
    }
}

/// Judges what has to be a whole number.
fn judge_whole(limits: &Limits, spot: Spot, whole: Option<u32>) -> Judged
    ensures taken { result.taken ≡ record { spot = spot; read = whole_read whole } }
    ensures flaw { (at : ℕ) → result.flaw
        ≡ first_flaw (where_so (not (is_some whole)) at flaws.Shape ++ outside (whole_limit limits.now spot) at whole) }
{
    let Some(number) = whole else {
        return Judged::unread(spot, Some(Flaw::Shape));
    };
    let flaw = match whole_limit(limits, spot) {
        Some((limit, which)) if number < 1 || u64::from(number) > limit => Some(Flaw::Limit(which)),
        _ => None,
    };
    let read = Read::Whole(number);
    Judged {
        taken: Taken { spot, read },
        flaw,
    }
}

/// Judges what has to be a number of 10^-6, from the least to 1,000,000 of them.
fn judge_millionths(spot: Spot, least: u32, millionths: Option<u32>) -> Judged
    ensures taken { result.taken ≡ record { spot = spot; read = millionths_read millionths } }
    ensures flaw { (at : ℕ) → result.flaw ≡ first_flaw (where_so
        (not (unwrap_or (option_map (λ m. nat_le least m && nat_le m 1_000_000) millionths) false)) at flaws.Shape) }
{
    let Some(number) = millionths else {
        return Judged::unread(spot, Some(Flaw::Shape));
    };
    let read = Read::Millionths(number);
    let has_shape = least <= number && number <= 1_000_000;
    Judged {
        taken: Taken { spot, read },
        flaw: if has_shape { None } else { Some(Flaw::Shape) },
    }
}

/// Judges a number that is read as a count.
fn judge_count(spot: Spot, num: &NumText) -> Judged
    ensures taken { result.taken ≡ record { spot = spot; read = count_read (fixed num.now) } }
    ensures flaw { (at : ℕ) → result.flaw ≡ first_flaw (where_so (is_none (fixed num.now)) at flaws.TooLarge) }
{
    match fixed_of(num) {
        Ok((count, rounded)) => Judged {
            taken: Taken {
                spot,
                read: Read::Count { count, rounded },
            },
            flaw: None,
        },
        Err(_) => Judged::unread(spot, Some(Flaw::TooLarge)),
    }
}

/// Reads a number at its spot, and says what is wrong with it.
pub fn judge_number(limits: &Limits, spot: Spot, num: &NumText) -> Judged
    ensures taken { result.taken ≡ record { spot = spot; read = read_of_number (shape.kind_of spot) num.now } }
    ensures flaw { (at : ℕ) → result.flaw ≡ first_flaw (own_faults limits.now spot at (json.Node.number num.now)) }
{
    match kind_of(spot) {
        Kind::Count => judge_count(spot, num),
        Kind::Whole => judge_whole(limits, spot, whole_of_number(num)),
        Kind::Quantile => judge_millionths(spot, 1, millionths_of(num)),
        Kind::Alpha => judge_millionths(spot, 0, millionths_of(num)),
        Kind::Anything => Judged::unread(spot, None),
        _ => Judged::unread(spot, Some(Flaw::Shape)),
    }
}

/// Reads a text at its spot, and says what is wrong with it.
pub fn judge_text(limits: &Limits, spot: Spot, text: &str) -> Judged
    ensures taken { result.taken ≡ record { spot = spot; read = read_of_text (shape.kind_of spot) text.now } }
    ensures flaw { (at : ℕ) → result.flaw ≡ first_flaw (own_faults limits.now spot at (json.Node.text text.now)) }
{
    match kind_of(spot) {
        Kind::Whole => judge_whole(limits, spot, whole_of_text(text)),
        Kind::Name if !is_name(text) => Judged::unread(spot, Some(Flaw::BadName)),
        Kind::Name | Kind::Anything => Judged::unread(spot, None),
        _ => Judged::unread(spot, Some(Flaw::Shape)),
    }
}
