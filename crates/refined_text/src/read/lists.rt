//! The price lists of a certificate.
ghost use Rattle.std.specs.Prelude.{◌≡◌, ◌<◌, ℕ, [], ◌∷◌, IfOk, IfErr};
ghost use Rattle.refined_text.specs.read.Parts.{no_part};
ghost use Rattle.refined_text.specs.read.Taking.{AreNamed, IsRefinedMark, among};
ghost use Rattle.refined_text.specs.read.Reading.{RefinedPasses, RefinedFails, mark_line, behind_mark, lists_begin};
ghost use Rattle.refined_text.specs.read.Reading.{ReadsPartAnd, ReadsRest, ReadsAll};

use crate::lines::RefinedLine;
use crate::read::lines::LinesLeft;
use crate::read::marks::{is_mark, is_mark_for};
use crate::read::part::PartList;
use certificate_text::{CertFault, Refusal};
use instance_model::Instance;
use refined_check::RefinedLists;
use refined_prices::RefinedPrices;
use season_exclusion::{Named, named_lists};
use std::alloc::Global;

/// Reads the price lists, and the line that begins the tree.
pub fn read_lists(
    alloc: Global,
    inst: &Instance,
    count: u32,
    lines: &mut LinesLeft<'_>,
) -> Result<RefinedLists, CertFault>
    ensures ok { IfOk result (λ lists. ReadsAll inst.now count lines.old lists lines.new) }
    ensures err { IfErr result (RefinedFails inst.now (lists_begin inst.now count) lines.old) }
{
    let named = named_lists(alloc, inst)?;
    let mut lists = Vec::new(alloc);
    read_first_mark(alloc, inst, count, lines)?;
    for k in 0..count {
        let list = read_list(alloc, inst, named.as_slice(), count - 1 - k, lines)?;
        lists.push(list)?;
    }
    Ok(RefinedLists::from_vec(lists))
}

/// Reads the first line behind the number of price lists, which begins the first one, or else the tree.
fn read_first_mark(
    alloc: Global,
    inst: &Instance,
    count: u32,
    lines: &mut LinesLeft<'_>,
) -> Result<(), CertFault>
    ensures ok { IfOk result (λ _. RefinedPasses inst.now (lists_begin inst.now count) lines.old
        (mark_line count ∷ []) (behind_mark inst.now count count) lines.new) }
    ensures err { IfErr result (RefinedFails inst.now (lists_begin inst.now count) lines.old) }
{
    let line = lines.next_line(alloc)?;
    if !is_mark_for(count, &line) {
        return Err(lines.fault(Refusal::Misplaced));
    }
    Ok(())
}

/// Reads the entries of a price list that was begun, and the line behind them, where `left` have still to begin.
fn read_list(
    alloc: Global,
    inst: &Instance,
    named: &[Named],
    left: u32,
    lines: &mut LinesLeft<'_>,
) -> Result<RefinedPrices, CertFault>
    requires named { AreNamed inst.now named.now }
    ensures ok { (count : ℕ) → IfOk result (λ list. ReadsRest inst.now count left lines.old list lines.new) }
    ensures err { (count : ℕ)
        → IfErr result (RefinedFails inst.now (among count left (no_part inst.now)) lines.old) }
{
    let mut part = PartList::none(alloc, inst)?;
    let line = read_entries(alloc, inst, named, &mut part, lines)?;
    if !is_mark_for(left, &line) {
        return Err(lines.fault(Refusal::Misplaced));
    }
    if !part.has_enough(inst) {
        return Err(lines.fault(Refusal::OutOfRange));
    }
    Ok(part.into_list())
}

/// Reads the entries of a price list into one that has none, and gives the line behind them.
fn read_entries(
    alloc: Global,
    inst: &Instance,
    named: &[Named],
    part: &mut PartList,
    lines: &mut LinesLeft<'_>,
) -> Result<RefinedLine, CertFault>
    requires named { AreNamed inst.now named.now }
    requires none { part.old ≡ no_part inst.now }
    ensures ok { IfOk result (λ line. ReadsPartAnd inst.now lines.old part.new line lines.new) }
    ensures mark { IfOk result IsRefinedMark }
    ensures err { (count left : ℕ)
        → IfErr result (RefinedFails inst.now (among count left (no_part inst.now)) lines.old) }
{
    let mut line = lines.next_line(alloc)?;
    while !is_mark(&line) {
        if let Some(refusal) = part.take(alloc, inst, named, &line)? {
            return Err(lines.fault(refusal));
        }
        line = lines.next_line(alloc)?;
    }
    Ok(line)
}
