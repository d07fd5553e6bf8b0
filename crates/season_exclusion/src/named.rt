//! The exclusions that name an intervention: contracts see their numbers in ascending order.
ghost use Rattle.std.specs.Prelude.{◌≡◌, ℕ, ◌<◌, replicate, [], ◌∷◌, ◌++◌, length, slice_index_or, if◌then◌else◌, IfOk};
ghost use Rattle.std.specs.Prelude.{OnOk};
ghost use Rattle.season_exclusion.specs.Broken.{is_named, naming_of};

use instance_model::{Exclusion, Instance};
use std::alloc::{AllocError, Global};
use std::marker::Model;

/// Exclusions that name one intervention.
#[derive(Drop)]
pub struct Named {
    exclusions: Vec<u32>,
}

impl Model for Named {
    ghost use Rattle.std.specs.Prelude.{ℕ, List};

    ghost Value = { List ℕ };

    ghost view = { λ n. n.exclusions.items };
}

impl Named {
    fn none(alloc: Global) -> Named
        ensures { result ≡ [] }
    {
        Named {
            exclusions: Vec::new(alloc),
        }
    }

    fn push(&mut self, e: u32) -> Result<(), AllocError>
        ensures { OnOk result (self.new ≡ self.old ++ e ∷ []) }
    {
        self.exclusions.push(e)?;
        Ok(())
    }

    pub fn as_slice(&self) -> &[u32]
        ensures { result.now ≡ self.now }
    {
        self.exclusions.as_slice()
    }
}

/// A list without exclusions for each intervention.
fn no_lists(alloc: Global, count: u32) -> Result<Vec<Named>, AllocError>
    ensures { IfOk result (λ lists. lists.items ≡ replicate count []) }
{
    let mut lists = Vec::new(alloc);
    for _i in 0..count {
        lists.push(Named::none(alloc))?;
    }
    Ok(lists)
}

/// Puts exclusion `e` behind the others of the interventions that it names, once where it names one twice.
fn note(lists: &mut [Named], exclusion: Exclusion, e: u32) -> Result<(), AllocError>
    requires first { exclusion.first < length lists.old }
    requires second { exclusion.second < length lists.old }
    ensures each { length lists.new ≡ length lists.old }
    ensures noted { OnOk result ((i : ℕ) → i < length lists.old → slice_index_or lists.new i [] ≡
        slice_index_or lists.old i [] ++ (if is_named exclusion i then e ∷ [] else [])) }
{
    let first = &mut lists[exclusion.first as usize];
    first.push(e)?;
    if exclusion.second != exclusion.first {
        let second = &mut lists[exclusion.second as usize];
        second.push(e)?;
    }
    Ok(())
}

/// The exclusions that name each intervention. Takes memory.
pub fn named_lists(alloc: Global, inst: &Instance) -> Result<Vec<Named>, AllocError>
    ensures each { IfOk result (λ lists. length lists.items ≡ length inst.now.names) }
    ensures named { IfOk result
        (λ lists. (i : ℕ) → i < length inst.now.names → slice_index_or lists.items i [] ≡ naming_of inst.now i) }
{
    let mut lists = no_lists(alloc, inst.interventions())?;
    for e in 0..inst.exclusions() {
        note(&mut lists, inst.exclusion(e), e)?;
    }
    Ok(lists)
}
