//! The entries of a refined price list are written.
ghost use Rattle.std.specs.Prelude.{◌≤◌, [], ◌∷◌, IsTrue};
ghost use Rattle.plan_desk.specs.Written.{WritesText};
ghost use Rattle.refined_prices.specs.Offsets.{group_tail_at};
ghost use Rattle.refined_prices.specs.RefinedLists.{IsRefinedList};
ghost use Rattle.refined_text.specs.text.Text.{text_of_refined, group_lines, cap_lines, further_lines};
ghost use Rattle.refined_text.specs.text.Text.{refined_entry_lines};
ghost use Rattle.refined_text.specs.text.Steps.{group_texts, offset_texts, clique_texts};

use crate::text::put::{put_cap, put_clique, put_group, put_offset};
use certificate_text::write_entries;
use instance_model::Instance;
use plan_desk::{Desk, Failed};
use refined_prices::{Clique, Group, Offset, RefinedPrices};

pub fn write_refined_entries<D: Desk>(
    inst: &Instance,
    list: &RefinedPrices,
    desk: &mut D,
) -> Result<(), Failed>
    requires opened { IsTrue (D.shows desk.old).output.opened }
    requires in_range { IsRefinedList inst.now list.now }
    ensures { WritesText (text_of_refined (refined_entry_lines inst.now list.now)) (D.shows desk.old)
        (D.shows desk.new) result }
{
    write_entries(inst, list.prices(), desk)?;
    write_further(inst, list, desk)
}

/// What a refined price list has besides prices on limits and exclusions.
fn write_further<D: Desk>(inst: &Instance, list: &RefinedPrices, desk: &mut D) -> Result<(), Failed>
    requires opened { IsTrue (D.shows desk.old).output.opened }
    requires in_range { IsRefinedList inst.now list.now }
    ensures { WritesText (text_of_refined (further_lines list.now)) (D.shows desk.old) (D.shows desk.new) result }
{
    write_cap(list.capped(), desk)?;
    write_tails(inst, list, desk)?;
    write_offsets(list.offsets(), desk)?;
    write_cliques(list.cliques(), desk)
}

/// That caps of lower limits count, where they do.
fn write_cap<D: Desk>(capped: bool, desk: &mut D) -> Result<(), Failed>
    requires opened { IsTrue (D.shows desk.old).output.opened }
    ensures { WritesText (text_of_refined (cap_lines capped)) (D.shows desk.old) (D.shows desk.new) result }
{
    if !capped {
        return Ok(());
    }
    put_cap(desk)
}

fn write_tails<D: Desk>(inst: &Instance, list: &RefinedPrices, desk: &mut D) -> Result<(), Failed>
    requires opened { IsTrue (D.shows desk.old).output.opened }
    requires in_range { IsRefinedList inst.now list.now }
    ensures { WritesText (text_of_refined (group_lines 1 list.now.tails)) (D.shows desk.old)
        (D.shows desk.new) result }
{
    for u in 0..inst.periods() {
        write_tail_of(inst, list, u + 1, desk)?;
    }
    Ok(())
}

/// The tail of a period, where there is one.
fn write_tail_of<D: Desk>(
    inst: &Instance,
    list: &RefinedPrices,
    t: u32,
    desk: &mut D,
) -> Result<(), Failed>
    requires opened { IsTrue (D.shows desk.old).output.opened }
    requires in_range { IsRefinedList inst.now list.now }
    requires from { 1 ≤ t }
    requires to { t ≤ inst.now.periods }
    ensures { WritesText (text_of_refined (group_lines t (group_tail_at list.now.tails t ∷ []))) (D.shows desk.old)
        (D.shows desk.new) result }
{
    match list.tail(inst, t) {
        Some(tail) => write_groups(t, tail.groups.as_slice(), desk),
        None => Ok(()),
    }
}

/// The groups of a period.
fn write_groups<D: Desk>(t: u32, groups: &[Group], desk: &mut D) -> Result<(), Failed>
    requires opened { IsTrue (D.shows desk.old).output.opened }
    ensures { WritesText (group_texts t groups.now) (D.shows desk.old) (D.shows desk.new) result }
{
    for group in groups {
        put_group(t, group.as_slice(), desk)?;
    }
    Ok(())
}

fn write_offsets<D: Desk>(offsets: &[Offset], desk: &mut D) -> Result<(), Failed>
    requires opened { IsTrue (D.shows desk.old).output.opened }
    ensures { WritesText (offset_texts offsets.now) (D.shows desk.old) (D.shows desk.new) result }
{
    for x in offsets {
        put_offset(*x, desk)?;
    }
    Ok(())
}

fn write_cliques<D: Desk>(cliques: &[Clique], desk: &mut D) -> Result<(), Failed>
    requires opened { IsTrue (D.shows desk.old).output.opened }
    ensures { WritesText (clique_texts cliques.now) (D.shows desk.old) (D.shows desk.new) result }
{
    for x in cliques {
        put_clique(x, desk)?;
    }
    Ok(())
}
