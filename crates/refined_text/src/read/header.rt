//! The first three lines of a certificate.
ghost use Rattle.std.specs.Prelude.{◌≡◌, ◌≤◌, ◌↔◌, [], ◌∷◌, IsTrue, IfOk, IfErr};
ghost use Rattle.instance_model.specs.Tables.{Tables};
ghost use Rattle.certificate_lines.specs.declared.line.Version.TheVariants.{Two};
ghost use Rattle.certificate_lines.specs.declared.line.CertificateLine.TheVariants as form;
ghost use Rattle.certificate_tree.specs.Ranges.{IsBoundInRange};
ghost use Rattle.certificate_text.specs.Grammar as place;
ghost use Rattle.refined_text.specs.declared.lines.line.RefinedLine.TheVariants as refined;
ghost use Rattle.refined_text.specs.grammar.Further.{no_further};
ghost use Rattle.refined_text.specs.grammar.Grammar.{start, within};
ghost use Rattle.refined_text.specs.read.Taking.{RefinedRefuses};
ghost use Rattle.refined_text.specs.read.Reading.{RefinedPasses, RefinedFails, lists_begin};

use crate::lines::RefinedLine;
use crate::read::lines::LinesLeft;
use certificate_lines::{Bound, Version};
use certificate_text::{CertFault, Refusal, bound_of, count_of};
use std::alloc::Global;

/// Reads the title.
pub fn read_title(alloc: Global, lines: &mut LinesLeft<'_>) -> Result<(), CertFault>
    ensures ok { (inst : Tables) → IfOk result (λ _. RefinedPasses inst start lines.old (refined.Title ∷ [])
        (within (place.bound Two) (no_further inst)) lines.new) }
    ensures err { (inst : Tables) → IfErr result (RefinedFails inst start lines.old) }
{
    let line = lines.next_line(alloc)?;
    if !is_title(&line) {
        return Err(lines.fault(Refusal::Misplaced));
    }
    Ok(())
}

fn is_title(line: &RefinedLine) -> bool
    ensures { IsTrue result ↔ (line.now ≡ refined.Title) }
{
    matches!(line, RefinedLine::Title)
}

/// Reads the bound.
pub fn read_bound(alloc: Global, lines: &mut LinesLeft<'_>) -> Result<Bound, CertFault>
    ensures ok { (inst : Tables) → IfOk result (λ bound. RefinedPasses inst (within (place.bound Two) (no_further inst))
        lines.old (refined.Plain (form.Bound bound) ∷ []) (within (place.count Two) (no_further inst)) lines.new) }
    ensures in_range { IfOk result IsBoundInRange }
    ensures err { (inst : Tables)
        → IfErr result (RefinedFails inst (within (place.bound Two) (no_further inst)) lines.old) }
{
    let line = lines.next_line(alloc)?;
    match bound_in(&line) {
        Ok(bound) => Ok(bound),
        Err(refusal) => Err(lines.fault(refusal)),
    }
}

fn bound_in(line: &RefinedLine) -> Result<Bound, Refusal>
    ensures ok { IfOk result (λ bound. (line.now ≡ refined.Plain (form.Bound bound)) × IsBoundInRange bound) }
    ensures err { (inst : Tables)
        → IfErr result (RefinedRefuses inst (within (place.bound Two) (no_further inst)) line.now) }
{
    match line {
        RefinedLine::Plain(plain) => bound_of(Version::Two, plain),
        _ => Err(Refusal::Misplaced),
    }
}

/// Reads how many price lists follow.
pub fn read_count(alloc: Global, lines: &mut LinesLeft<'_>) -> Result<u32, CertFault>
    ensures ok { (inst : Tables) → IfOk result (λ count. RefinedPasses inst (within (place.count Two) (no_further inst))
        lines.old (refined.Plain (form.Lists count) ∷ []) (lists_begin inst count) lines.new) }
    ensures few { IfOk result (λ count. count ≤ 16) }
    ensures err { (inst : Tables)
        → IfErr result (RefinedFails inst (within (place.count Two) (no_further inst)) lines.old) }
{
    let line = lines.next_line(alloc)?;
    match count_in(&line) {
        Ok(count) => Ok(count),
        Err(refusal) => Err(lines.fault(refusal)),
    }
}

fn count_in(line: &RefinedLine) -> Result<u32, Refusal>
    ensures ok { IfOk result (λ count. (line.now ≡ refined.Plain (form.Lists count)) × (count ≤ 16)) }
    ensures err { (inst : Tables)
        → IfErr result (RefinedRefuses inst (within (place.count Two) (no_further inst)) line.now) }
{
    match line {
        RefinedLine::Plain(plain) => count_of(Version::Two, plain),
        _ => Err(Refusal::Misplaced),
    }
}
