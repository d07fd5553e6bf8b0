//! The offsets of a refined price list by intervention, and those of one intervention by period, then group.
ghost use Rattle.std.specs.Prelude.{◌≡◌, ℕ, ◌+◌, ◌*◌, ◌<◌, ◌≤◌, ◌==◌, [], ◌∷◌, ◌++◌, length, All, IfOk, OnOk};
ghost use Rattle.std.specs.Prelude.{replicate};
ghost use Rattle.std.specs.Prelude.{slice_index_or, slice_set, if◌then◌else◌};
ghost use Rattle.refined_prices.specs.Offsets.{IsOffset};
ghost use Rattle.refined_prices.specs.RefinedLists.{IsRefinedList};
ghost use Rattle.refined_prices.specs.tables.OffsetRows.{own_offsets as own_of, AreWithin, group_place, IsOffsetRow};

use crate::offset::Offset;
use crate::refined::RefinedPrices;
use instance_model::Instance;
use std::alloc::{AllocError, Global};
use std::marker::Model;

/// The offsets of one intervention, in the order of the list.
#[derive(Drop)]
pub(crate) struct OwnOffsets {
    offsets: Vec<Offset>,
}

impl Model for OwnOffsets {
    ghost use Rattle.std.specs.Prelude.{List};
    ghost use Rattle.refined_prices.specs.declared.offset.Offset.{Offset};

    ghost Value = { List Offset };

    ghost view = { λ own. own.offsets.items };
}

impl OwnOffsets {
    fn none(alloc: Global) -> OwnOffsets
        ensures { result ≡ [] }
    {
        OwnOffsets {
            offsets: Vec::new(alloc),
        }
    }

    fn push(&mut self, x: Offset) -> Result<(), AllocError>
        ensures { OnOk result (self.new ≡ self.old ++ x ∷ []) }
    {
        self.offsets.push(x)?;
        Ok(())
    }

    pub(crate) fn as_slice(&self) -> &[Offset]
        ensures { result.now ≡ self.now }
    {
        self.offsets.as_slice()
    }
}

/// A list without offsets for each intervention.
fn no_offsets(alloc: Global, count: u32) -> Result<Vec<OwnOffsets>, AllocError>
    ensures { IfOk result (λ lists. lists.items ≡ replicate count []) }
{
    let mut lists = Vec::new(alloc);
    for _i in 0..count {
        lists.push(OwnOffsets::none(alloc))?;
    }
    Ok(lists)
}

/// Puts an offset behind the others of its intervention.
fn put(lists: &mut [OwnOffsets], x: Offset) -> Result<(), AllocError>
    requires { x.intervention < length lists.old }
    ensures each { length lists.new ≡ length lists.old }
    ensures put { OnOk result ((i : ℕ) → i < length lists.old → slice_index_or lists.new i [] ≡
        slice_index_or lists.old i [] ++ (if x.intervention == i then x ∷ [] else [])) }
{
    let own = &mut lists[x.intervention as usize];
    own.push(x)?;
    Ok(())
}

/// The offsets of each intervention. Takes memory.
pub(crate) fn own_offsets(
    alloc: Global,
    inst: &Instance,
    list: &RefinedPrices,
) -> Result<Vec<OwnOffsets>, AllocError>
    requires { IsRefinedList inst.now list.now }
    ensures each { IfOk result (λ lists. length lists.items ≡ length inst.now.names) }
    ensures own { IfOk result (λ lists. (i : ℕ) → i < length inst.now.names →
        slice_index_or lists.items i [] ≡ own_of list.now.offsets i) }
{
    let mut lists = no_offsets(alloc, inst.interventions())?;
    for x in list.offsets() {
        put(&mut lists, *x)?;
    }
    Ok(lists)
}

/// Writes an offset to its place in a row.
fn write_offset(row: &mut Vec<u32>, width: usize, x: Offset)
    requires from { 1 ≤ x.period }
    requires few { width ≤ 1025 }
    requires within { group_place width x.period x.group < length row.old.items }
    ensures { row.new.items ≡ slice_set row.old.items (group_place width x.period x.group) x.value }
{
    let place = (x.period as usize - 1) * width + x.group as usize;
    row[place] = x.value;
}

/// The row of an intervention, of its offsets.
pub(crate) fn offset_row(
    alloc: Global,
    inst: &Instance,
    list: &RefinedPrices,
    width: usize,
    own: &OwnOffsets,
    i: u32,
) -> Result<Vec<u32>, AllocError>
    requires list { IsRefinedList inst.now list.now }
    requires width { AreWithin list.now.tails width }
    requires own { own.now ≡ own_of list.now.offsets i }
    ensures { IfOk result (λ row. IsOffsetRow inst.now list.now.offsets width i row.items) }
{
    inst.fits();
    let offsets = own.as_slice();
    let count = offsets.len();
    let mut row: Vec<u32> = vec![in alloc; 0; inst.periods() as usize * width]?;
    for k in 0..count {
        write_offset(&mut row, width, offsets[count - 1 - k]);
    }
    Ok(row)
}
