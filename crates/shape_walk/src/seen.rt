//! The keys that an open object has had.

ghost use Rattle.std.specs.Prelude.{◌≡◌, ℕ, List, ◌∷◌, ◌++◌, [], None, true, IfOk, not, ◌&&◌};
ghost use Rattle.instance_model.specs.declared.limits.Limits.{Limits as Sizes};
ghost use Rattle.instance_shape.specs.declared.spot.Kind.TheVariants as kinds;
ghost use Rattle.instance_shape.specs.declared.fault.Flaw.TheVariants as flaws;
ghost use Rattle.instance_shape.specs.Keys.{is_name, is_digits, number_of, key_of, by_number};
ghost use Rattle.instance_shape.specs.Seen.{texts_of, numbers_of};
ghost use Rattle.instance_shape.specs.Shape as shape;
ghost use Rattle.instance_shape.specs.ShapeFaults.{where_so, key_faults, key_limit, first_past, takes_names, missing};
ghost use Rattle.shape_walk.specs.Flaws.{first_flaw};
ghost use Rattle.shape_walk.specs.declared.taken.Read.TheVariants as reads;
ghost use Rattle.shape_walk.specs.Reads.{read_of_key};
ghost use Rattle.shape_walk.specs.Seen.{seen_of, suits, counts_by_text};

use crate::judged::Judged;
use crate::number_keys::NumberKeys;
use crate::taken::{Read, Taken};
use instance_model::Limits;
use instance_shape::{Flaw, Kind, Spot, Which, add_text, is_name, kind_of, missing_key, number_of};
use ordered_keys::KeySet;
use std::alloc::{AllocError, Global};

/// The keys by what they count as: names and required keys by their texts, periods and starts by their numbers. In
/// other objects they don't count.
#[derive(Drop)]
pub enum Seen {
    Texts(KeySet),
    Numbers(NumberKeys),
    Nothing,
}

impl Seen {
    /// No keys, of an object at a spot.
    pub fn none(alloc: Global, spot: Spot) -> Seen
        ensures keys { seen_of result ≡ [] }
        ensures suits { suits result (shape.kind_of spot) ≡ true }
    {
        match kind_of(spot) {
            Kind::Record | Kind::Names => Seen::Texts(KeySet::new(alloc)),
            Kind::Numbers => Seen::Numbers(NumberKeys::none(alloc)),
            _ => Seen::Nothing,
        }
    }

    /// What is wrong at the closing brace of an object at a spot.
    pub fn closing_flaw(&self, spot: Spot) -> Option<Flaw>
        requires { suits self.now (shape.kind_of spot) ≡ true }
        ensures { (at : ℕ) → result ≡ first_flaw (missing (shape.required spot) (seen_of self.now) at) }
    {
        match self {
            Seen::Texts(texts) => missing_key(spot, texts).map(Flaw::Missing),
            Seen::Numbers(_) | Seen::Nothing => None,
        }
    }

    /// Adds a key of an object at a spot.
    pub fn take(
        &mut self,
        alloc: Global,
        limits: &Limits,
        spot: Spot,
        key: &str,
    ) -> Result<Judged, AllocError>
        requires { suits self.old (shape.kind_of spot) ≡ true }
        ensures flaw { IfOk result (λ r. (at : ℕ) → r.flaw
            ≡ first_flaw (key_faults limits.now spot (seen_of self.old) at key.now)) }
        ensures taken { IfOk result (λ r. r.taken
            ≡ record { spot = spot; read = read_of_key (shape.kind_of spot) key.now }) }
        ensures added { IfOk result (λ r. r.flaw ≡ None
            → seen_of self.new ≡ seen_of self.old ++ key_of (shape.kind_of spot) key.now) }
        ensures suits { suits self.new (shape.kind_of spot) ≡ true }
    {
        match self {
            Seen::Texts(texts) => {
                let flaw = take_text(alloc, limits, spot, texts, key)?;
                Ok(Judged::unread(spot, flaw))
            }
            Seen::Numbers(numbers) => take_number(spot, numbers, key),
            Seen::Nothing => Ok(Judged::unread(spot, None)),
        }
    }

    /// Adds a key of an object at a spot whose keys are periods or starts, by the number that it writes.
    pub fn take_number(&mut self, spot: Spot, number: u32) -> Result<Judged, AllocError>
        requires suits { suits self.old (shape.kind_of spot) ≡ true }
        requires numbers { shape.kind_of spot ≡ kinds.Numbers }
        ensures flaw { IfOk result (λ r. (limits : Sizes) (at : ℕ) (key : List ℕ)
            → is_digits key ≡ true → number_of key ≡ number
            → r.flaw ≡ first_flaw (key_faults limits spot (seen_of self.old) at key)) }
        ensures taken { IfOk result (λ r. r.taken ≡ record { spot = spot; read = reads.Whole number }) }
        ensures added { IfOk result (λ r. r.flaw ≡ None
            → seen_of self.new ≡ seen_of self.old ++ by_number number ∷ []) }
        ensures suits { suits self.new (shape.kind_of spot) ≡ true }
    {
        match self {
            Seen::Numbers(numbers) => add_number(spot, numbers, number),
            Seen::Texts(_) | Seen::Nothing => unreachable!(),
        }
    }
}

/// The limit on the number of keys of an object at a spot.
fn key_limit(limits: &Limits, spot: Spot) -> Option<(u64, Which)>
    ensures { result ≡ key_limit limits.now spot }
{
    match spot {
        Spot::Resources => Some((limits.resources, Which::Resources)),
        Spot::Interventions => Some((limits.interventions, Which::Interventions)),
        Spot::Seasons => Some((limits.seasons, Which::Seasons)),
        Spot::Exclusions => Some((limits.exclusions, Which::Exclusions)),
        _ => None,
    }
}

/// What is wrong with a key behind so many others, if it is new.
fn new_text_flaw(limits: &Limits, spot: Spot, before: usize, key: &str) -> Option<Flaw>
    ensures { (at : ℕ) → result
        ≡ first_flaw (where_so (takes_names (shape.kind_of spot) && not (is_name key.now)) at flaws.BadName
        ++ first_past (key_limit limits.now spot) before at) }
{
    if matches!(kind_of(spot), Kind::Names) && !is_name(key) {
        return Some(Flaw::BadName);
    }
    match key_limit(limits, spot) {
        Some((limit, which)) if before as u64 == limit => Some(Flaw::Limit(which)),
        _ => None,
    }
}

/// Adds a key that counts by its text.
fn take_text(
    alloc: Global,
    limits: &Limits,
    spot: Spot,
    texts: &mut KeySet,
    key: &str,
) -> Result<Option<Flaw>, AllocError>
    requires { counts_by_text (shape.kind_of spot) ≡ true }
    ensures flaw { IfOk result (λ r. (at : ℕ) → r
        ≡ first_flaw (key_faults limits.now spot (texts_of texts.old.added.keys) at key.now)) }
    ensures added { IfOk result (λ r. r ≡ None
        → texts_of texts.new.added.keys
        ≡ texts_of texts.old.added.keys ++ key_of (shape.kind_of spot) key.now) }
{
    let flaw = new_text_flaw(limits, spot, texts.len(), key);
    let new = add_text(alloc, texts, key)?;
    Ok(if new { flaw } else { Some(Flaw::Double) })
}

/// Adds a key that counts by its number.
fn take_number(spot: Spot, numbers: &mut NumberKeys, key: &str) -> Result<Judged, AllocError>
    requires { shape.kind_of spot ≡ kinds.Numbers }
    ensures flaw { IfOk result (λ r. (limits : Sizes) (at : ℕ) → r.flaw
        ≡ first_flaw (key_faults limits spot (numbers_of numbers.old) at key.now)) }
    ensures taken { IfOk result (λ r. r.taken
        ≡ record { spot = spot; read = read_of_key (shape.kind_of spot) key.now }) }
    ensures added { IfOk result (λ r. r.flaw ≡ None
        → numbers_of numbers.new ≡ numbers_of numbers.old ++ key_of (shape.kind_of spot) key.now) }
{
    match number_of(key) {
        Some(number) => add_number(spot, numbers, number),
        None => Ok(Judged::unread(spot, Some(Flaw::Shape))),
    }
}

/// Adds a period or start.
fn add_number(spot: Spot, numbers: &mut NumberKeys, number: u32) -> Result<Judged, AllocError>
    requires { shape.kind_of spot ≡ kinds.Numbers }
    ensures flaw { IfOk result (λ r. (limits : Sizes) (at : ℕ) (key : List ℕ)
        → is_digits key ≡ true → number_of key ≡ number
        → r.flaw ≡ first_flaw (key_faults limits spot (numbers_of numbers.old) at key)) }
    ensures taken { IfOk result (λ r. r.taken ≡ record { spot = spot; read = reads.Whole number }) }
    ensures added { IfOk result (λ r. r.flaw ≡ None
        → numbers_of numbers.new ≡ numbers_of numbers.old ++ by_number number ∷ []) }
{
    let new = numbers.add(number)?;
    Ok(Judged {
        taken: Taken {
            spot,
            read: Read::Whole(number),
        },
        flaw: if new { None } else { Some(Flaw::Double) },
    })
}
