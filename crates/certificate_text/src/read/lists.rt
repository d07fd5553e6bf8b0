//! The price lists of a certificate.
ghost use Rattle.std.specs.Prelude.{◌≡◌, ◌<◌, ℕ, Option, Some, None, IsTrue, ◌↔◌, IfOk, IfErr};
ghost use Rattle.certificate_lines.specs.declared.line.CertificateLine.TheVariants as form;
ghost use Rattle.certificate_text.specs.Grammar as place;
ghost use Rattle.certificate_text.specs.Grammar.{EntryKey as Key, before_entries};
ghost use Rattle.certificate_text.specs.read.Reading.{Fails, IsBetween, ReadsAllEntries, ReadsList, ReadsAllLists};

use crate::read::CertFault;
use crate::read::entry::read_entry;
use crate::read::key::EntryKey;
use crate::read::lines::Lines;
use crate::read::refusal::Refusal;
use certificate_lines::{CertificateLine, Version};
use certificate_tree::PriceLists;
use instance_model::Instance;
use lagrange_bound::Prices;
use std::alloc::Global;

/// Reads the price lists, and the line that begins the tree.
pub fn read_lists(
    alloc: Global,
    inst: &Instance,
    version: Version,
    count: u32,
    lines: &mut Lines<'_>,
) -> Result<PriceLists, CertFault>
    ensures ok { IfOk result (λ lists. ReadsAllLists inst.now version count lines.old lists lines.new) }
    ensures err { IfErr result (Fails inst.now (place.lists version count count None) lines.old) }
{
    let mut lists = Vec::new(alloc);
    for _k in 0..count {
        let prices = read_list(alloc, inst, version, lines)?;
        lists.push(prices)?;
    }
    let line = lines.next_line(alloc)?;
    if !is_tree(&line) {
        return Err(lines.fault(Refusal::Misplaced));
    }
    Ok(PriceLists::from_vec(lists))
}

/// Reads a price list.
fn read_list(
    alloc: Global,
    inst: &Instance,
    version: Version,
    lines: &mut Lines<'_>,
) -> Result<Prices, CertFault>
    ensures ok { (start : Option Key)
        → IfOk result (λ prices. ReadsList inst.now version start lines.old prices lines.new) }
    ensures err { (start : Option Key) (count left : ℕ) → IsBetween start lines.old → 0 < left
        → IfErr result (Fails inst.now (place.lists version count left start) lines.old) }
{
    let line = lines.next_line(alloc)?;
    if !is_prices(&line) {
        return Err(lines.fault(Refusal::Misplaced));
    }
    read_entries(alloc, inst, version, lines)
}

/// Reads the entries of a price list that was begun.
fn read_entries(
    alloc: Global,
    inst: &Instance,
    version: Version,
    lines: &mut Lines<'_>,
) -> Result<Prices, CertFault>
    ensures ok { IfOk result (λ prices. ReadsAllEntries inst.now version lines.old prices lines.new) }
    ensures err { (count left : ℕ)
        → IfErr result (Fails inst.now (place.lists version count left (Some before_entries)) lines.old) }
{
    let mut prices = Prices::zero(alloc, inst)?;
    let mut last = EntryKey::Begin;
    while !lines.is_before_mark() {
        last = read_entry(alloc, inst, version, last, &mut prices, lines)?;
    }
    Ok(prices)
}

fn is_prices(line: &CertificateLine) -> bool
    ensures { IsTrue result ↔ (line.now ≡ form.Prices) }
{
    matches!(line, CertificateLine::Prices)
}

fn is_tree(line: &CertificateLine) -> bool
    ensures { IsTrue result ↔ (line.now ≡ form.Tree) }
{
    matches!(line, CertificateLine::Tree)
}
