//! The first three lines of a certificate.
ghost use Rattle.std.specs.Prelude.{◌≡◌, ◌≤◌, [], ◌∷◌, None, IfOk, IfErr};
ghost use Rattle.instance_model.specs.Tables.{Tables};
ghost use Rattle.certificate_lines.specs.declared.line.CertificateLine.TheVariants as form;
ghost use Rattle.certificate_tree.specs.Ranges.{IsBoundInRange};
ghost use Rattle.certificate_text.specs.Grammar as place;
ghost use Rattle.certificate_text.specs.read.Reading.{Passes, Fails, Refuses};

use crate::read::CertFault;
use crate::read::lines::Lines;
use crate::read::refusal::Refusal;
use certificate_lines::{Bound, CertificateLine, Version};
use std::alloc::Global;

/// The most price lists that a certificate has.
const MOST_LISTS: u64 = 16;

/// The largest absolute value of a bound.
const MOST_BOUND: u128 = 1_000_000_000_000_000_000_000_000_000_000_000_000;

/// Reads the title.
pub fn read_title(alloc: Global, lines: &mut Lines<'_>) -> Result<Version, CertFault>
    ensures ok { (inst : Tables) → IfOk result (λ version. Passes inst place.title lines.old (form.Title version ∷ [])
        (place.bound version) lines.new) }
    ensures err { (inst : Tables) → IfErr result (Fails inst place.title lines.old) }
{
    let line = lines.next_line(alloc)?;
    match title_of(&line) {
        Ok(version) => Ok(version),
        Err(refusal) => Err(lines.fault(refusal)),
    }
}

fn title_of(line: &CertificateLine) -> Result<Version, Refusal>
    ensures ok { IfOk result (λ version. line.now ≡ form.Title version) }
    ensures err { (inst : Tables) → IfErr result (Refuses inst place.title line.now) }
{
    match *line {
        CertificateLine::Title(version) => Ok(version),
        _ => Err(Refusal::Misplaced),
    }
}

/// Reads the bound.
pub fn read_bound(
    alloc: Global,
    version: Version,
    lines: &mut Lines<'_>,
) -> Result<Bound, CertFault>
    ensures ok { (inst : Tables) → IfOk result (λ bound. Passes inst (place.bound version) lines.old
        (form.Bound bound ∷ []) (place.count version) lines.new) }
    ensures in_range { IfOk result IsBoundInRange }
    ensures err { (inst : Tables) → IfErr result (Fails inst (place.bound version) lines.old) }
{
    let line = lines.next_line(alloc)?;
    match bound_of(version, &line) {
        Ok(bound) => Ok(bound),
        Err(refusal) => Err(lines.fault(refusal)),
    }
}

pub fn bound_of(version: Version, line: &CertificateLine) -> Result<Bound, Refusal>
    ensures ok { IfOk result (λ bound. (line.now ≡ form.Bound bound) × IsBoundInRange bound) }
    ensures err { (inst : Tables) → IfErr result (Refuses inst (place.bound version) line.now) }
{
    match *line {
        CertificateLine::Bound(Bound::Least(least)) if least.unsigned_abs() > MOST_BOUND => {
            Err(Refusal::OutOfRange)
        }
        CertificateLine::Bound(bound) => Ok(bound),
        _ => Err(Refusal::Misplaced),
    }
}

/// Reads how many price lists follow.
pub fn read_count(alloc: Global, version: Version, lines: &mut Lines<'_>) -> Result<u32, CertFault>
    ensures ok { (inst : Tables) → IfOk result (λ count. Passes inst (place.count version) lines.old
        (form.Lists count ∷ []) (place.lists version count count None) lines.new) }
    ensures few { IfOk result (λ count. count ≤ 16) }
    ensures err { (inst : Tables) → IfErr result (Fails inst (place.count version) lines.old) }
{
    let line = lines.next_line(alloc)?;
    match count_of(version, &line) {
        Ok(count) => Ok(count),
        Err(refusal) => Err(lines.fault(refusal)),
    }
}

pub fn count_of(version: Version, line: &CertificateLine) -> Result<u32, Refusal>
    ensures ok { IfOk result (λ count. (line.now ≡ form.Lists count) × (count ≤ 16)) }
    ensures err { (inst : Tables) → IfErr result (Refuses inst (place.count version) line.now) }
{
    match *line {
        CertificateLine::Lists { count } if count > MOST_LISTS => Err(Refusal::OutOfRange),
        CertificateLine::Lists { count } => Ok(count as u32),
        _ => Err(Refusal::Misplaced),
    }
}
