//! A price list while its entries are read.
ghost use Rattle.std.specs.Prelude.{◌≡◌, ◌↔◌, ℕ, ◌<◌, ◌≤◌, ⊤, length, IsTrue, IfOk, IfSome, IfNone, OnOk};
ghost use Rattle.std.specs.Prelude.{AllPairs, option_map, replicate, None};
ghost use Rattle.certificate_text.specs.Grammar.{KeyBelow};
ghost use Rattle.certificate_text.specs.read.Reading.{IsMark, key_view};
ghost use Rattle.refined_prices.specs.Offsets.{group_tail_at, OffsetBefore};
ghost use Rattle.refined_text.specs.lines.Spelling.{IsPlain, IsRefinedLine};
ghost use Rattle.refined_text.specs.declared.lines.line.RefinedLine.TheVariants as refined;
ghost use Rattle.refined_text.specs.grammar.Further.{group_of, with_group, with_group_of, HasEnough};
ghost use Rattle.refined_text.specs.grammar.Further.{IsNextGroup, GroupFits};
ghost use Rattle.refined_text.specs.grammar.Further.{IsNextOffset, OffsetFits, IsNextClique, CliqueFits};
ghost use Rattle.refined_text.specs.grammar.SoFar.{list_of};
ghost use Rattle.refined_text.specs.read.Parts.{no_part};
ghost use Rattle.refined_text.specs.read.Taking.{RefusedBy, RefinedRefuses, IsRefinedMark, among, IsPart, AreNamed};
ghost use Rattle.refined_text.specs.read.Taking.{TakesEntry, TakesPrice, TakesCap, TakesGroup, TakesOffset};
ghost use Rattle.refined_text.specs.read.Taking.{TakesClique};

use crate::lines::{LineMember, RefinedLine};
use crate::read::cliques::{clique_in, follows_cliques};
use crate::read::groups::{fits_beside, follows_groups, grown_tail, members_in};
use crate::read::kind::EntryKind;
use crate::read::offsets::{follows_offsets, offset_in};
use certificate_lines::{CertificateLine, Version};
use certificate_text::{EntryKey, Refusal, counts_to, key_of, set_entry};
use instance_model::Instance;
use lagrange_bound::Prices;
use refined_prices::{Clique, Group, GroupTail, Offset, RefinedPrices};
use season_exclusion::Named;
use std::alloc::{AllocError, Global};
use std::marker::Model;

/// The most cliques that a price list has.
const MOST_CLIQUES: usize = 4096;

/// What has been read of a price list: contracts see the prices on limits and exclusions, the key of the last of them,
/// and what was read besides.
#[derive(Drop)]
pub struct PartList {
    prices: Prices,
    last: EntryKey,
    kind: EntryKind,
    period: u32,
    capped: bool,
    tails: Vec<Option<GroupTail>>,
    offsets: Vec<Offset>,
    cliques: Vec<Clique>,
}

impl Model for PartList {
    ghost use Rattle.certificate_text.specs.read.Reading.{key_view};
    ghost use Rattle.refined_text.specs.read.Parts.{Part, kind_number};

    ghost Value = { Part };

    ghost view = { λ p. record {
      prices = p.prices;
      last = key_view p.last;
      further = record {
        kind = kind_number p.kind;
        period = p.period;
        capped = p.capped;
        tails = p.tails.items;
        offsets = p.offsets.items;
        cliques = p.cliques.items;
      };
    } };
}

impl PartList {
    /// The list of zeros, of which no entry has been read.
    pub fn none(alloc: Global, inst: &Instance) -> Result<PartList, AllocError>
        ensures { IfOk result (λ part. part ≡ no_part inst.now) }
    {
        Ok(PartList {
            prices: Prices::zero(alloc, inst)?,
            last: EntryKey::Begin,
            kind: EntryKind::Price,
            period: 0,
            capped: false,
            tails: no_tails(alloc, inst.periods())?,
            offsets: Vec::new(alloc),
            cliques: Vec::new(alloc),
        })
    }

    /// The price list, where all entries were read.
    pub fn into_list(self) -> RefinedPrices
        ensures { result ≡ list_of self.prices self.further }
    {
        let PartList {
            prices,
            capped,
            tails,
            offsets,
            cliques,
            ..
        } = self;
        RefinedPrices::from_parts(prices, capped, tails, offsets, cliques)
    }

    /// Whether the period of the last group has enough of them.
    pub fn has_enough(&self, inst: &Instance) -> bool
        requires part { IsPart inst.now self.now }
        ensures { IsTrue result ↔ HasEnough inst.now self.now.further.tails self.now.further.period }
    {
        match self.tail(inst, u64::from(self.period)) {
            Some(tail) => {
                let needed = inst.scenarios(self.period) as usize + 1;
                needed <= tail.groups.as_slice().len() + inst.rank(self.period) as usize
            }
            None => true,
        }
    }

    /// The tail of a period that isn't below that of the last group.
    fn tail(&self, inst: &Instance, t: u64) -> Option<&GroupTail>
        requires part { IsPart inst.now self.now }
        requires due { self.now.further.period ≤ t }
        ensures value { option_map (λ tail. tail.now) result ≡ group_tail_at self.now.further.tails t }
        ensures from { IfSome result (λ _. 1 ≤ t) }
        ensures to { IfSome result (λ _. t ≤ inst.now.periods) }
    {
        if !counts_to(t, inst.periods()) {
            return None;
        }
        self.tails[t as usize - 1].as_ref()
    }

    /// Takes the entry of a line behind those that have been read. Gives why the line is refused, where it is.
    pub fn take(
        &mut self,
        alloc: Global,
        inst: &Instance,
        named: &[Named],
        line: &RefinedLine,
    ) -> Result<Option<Refusal>, AllocError>
        requires part { IsPart inst.now self.old }
        requires named { AreNamed inst.now named.now }
        requires form { IsRefinedLine line.now }
        requires no_mark { IsRefinedMark line.now → ⊥ }
        ensures taken { IfOk result (λ told. IfNone told (TakesEntry inst.now self.old self.new line.now)) }
        ensures refused { (count left : ℕ) → IfOk result
            (λ told. IfSome told (RefinedRefuses inst.now (among count left self.old) line.now)) }
    {
        match line {
            RefinedLine::Title => Ok(Some(Refusal::Misplaced)),
            RefinedLine::Plain(plain) => self.take_price(alloc, inst, plain),
            RefinedLine::Cap => Ok(self.take_cap()),
            RefinedLine::Group { t, members } => self.take_group(
                alloc,
                inst,
                *t,
                members.as_slice(),
            ),
            RefinedLine::Offset { t, i, g, v } => self.take_offset(inst, *t, *i, *g, *v),
            RefinedLine::Clique { t, v, members } => {
                self.take_clique(alloc, inst, named, *t, *v, members.as_slice())
            }
        }
    }

    /// Takes a price on a limit or an exclusion.
    fn take_price(
        &mut self,
        alloc: Global,
        inst: &Instance,
        line: &CertificateLine,
    ) -> Result<Option<Refusal>, AllocError>
        requires part { IsPart inst.now self.old }
        requires plain { IsPlain line.now }
        requires no_mark { IsMark line.now → ⊥ }
        ensures taken { IfOk result (λ told. IfNone told (TakesPrice inst.now self.old self.new line.now)) }
        ensures refused { (count left : ℕ) → IfOk result
            (λ told. IfSome told (RefinedRefuses inst.now (among count left self.old) (refined.Plain line.now))) }
    {
        let Some(key) = key_of(Version::Two, line) else {
            return Ok(Some(Refusal::Misplaced));
        };
        if !self.is_next_price(key) {
            return Ok(Some(Refusal::Misplaced));
        }
        if !set_entry(alloc, inst, line, &mut self.prices)? {
            return Ok(Some(Refusal::OutOfRange));
        }
        self.last = key;
        Ok(None)
    }

    /// Whether a price of this key comes behind all entries so far.
    fn is_next_price(&self, key: EntryKey) -> bool
        ensures { IsTrue result ↔ ((self.now.further.kind ≡ 0) × KeyBelow self.now.last (key_view key)) }
    {
        self.kind.number() == 0 && self.last.is_below(key)
    }

    /// Takes the line by which no load counts for more than the cap.
    fn take_cap(&mut self) -> Option<Refusal>
        ensures taken { IfNone result (TakesCap self.old self.new) }
        ensures refused { IfSome result (RefusedBy (self.old.further.kind ≡ 0) ⊤) }
    {
        if self.kind.number() > 0 {
            return Some(Refusal::Misplaced);
        }
        self.kind = EntryKind::Cap;
        self.capped = true;
        None
    }

    /// Takes a group.
    fn take_group(
        &mut self,
        alloc: Global,
        inst: &Instance,
        t: u64,
        members: &[LineMember],
    ) -> Result<Option<Refusal>, AllocError>
        requires part { IsPart inst.now self.old }
        ensures taken { IfOk result
            (λ told. IfNone told (TakesGroup inst.now self.old self.new t (group_of members.now))) }
        ensures refused { IfOk result (λ told. IfSome told (RefusedBy
            (IsNextGroup self.old.further t (group_of members.now))
            (GroupFits inst.now self.old.further t (group_of members.now)))) }
    {
        if !self.is_next_group(inst, t, members) {
            return Ok(Some(Refusal::Misplaced));
        }
        let Some(group) = self.group_in(alloc, inst, t, members)? else {
            return Ok(Some(Refusal::OutOfRange));
        };
        self.push_group(alloc, t as u32, group)?;
        Ok(None)
    }

    fn is_next_group(&self, inst: &Instance, t: u64, members: &[LineMember]) -> bool
        requires part { IsPart inst.now self.now }
        ensures { IsTrue result ↔ IsNextGroup self.now.further t (group_of members.now) }
    {
        self.kind.number() <= 2
            && u64::from(self.period) <= t
            && follows_groups(self.tail(inst, t), members)
    }

    /// The group of a line, if it is in range beside the others and the period before it has enough.
    fn group_in(
        &self,
        alloc: Global,
        inst: &Instance,
        t: u64,
        members: &[LineMember],
    ) -> Result<Option<Group>, AllocError>
        requires part { IsPart inst.now self.now }
        requires due { self.now.further.period ≤ t }
        ensures some { IfOk result (λ read. IfSome read (λ group. group ≡ group_of members.now)) }
        ensures fits { IfOk result
            (λ read. IfSome read (λ _. GroupFits inst.now self.now.further t (group_of members.now))) }
        ensures small { IfOk result (λ read. IfSome read (λ _. t ≤ 512)) }
        ensures none { IfOk result
            (λ read. IfNone read (GroupFits inst.now self.now.further t (group_of members.now) → ⊥)) }
    {
        if !counts_to(t, inst.periods()) || !self.may_go_on(inst, t) {
            return Ok(None);
        }
        let n = inst.scenarios(t as u32);
        let Some(group) = members_in(alloc, n, members)? else {
            return Ok(None);
        };
        if !fits_beside(n, self.tail(inst, t), group.as_slice()) {
            return Ok(None);
        }
        Ok(Some(Group::from_vec(group)))
    }

    /// Whether a group of this period leaves no other period with too few.
    fn may_go_on(&self, inst: &Instance, t: u64) -> bool
        requires part { IsPart inst.now self.now }
        ensures { IsTrue result ↔ ((self.now.further.period ≡ t → ⊥)
            → HasEnough inst.now self.now.further.tails self.now.further.period) }
    {
        u64::from(self.period) == t || self.has_enough(inst)
    }

    fn push_group(&mut self, alloc: Global, t: u32, group: Group) -> Result<(), AllocError>
        requires from { 1 ≤ t }
        requires to { t ≤ length self.old.further.tails }
        requires small { (with_group (group_tail_at self.old.further.tails t) group).weight ≤ 1000 }
        ensures { OnOk result (self.new ≡ record self.old { further = with_group_of self.old.further t group }) }
    {
        let slot = &mut self.tails[t as usize - 1];
        let tail = slot.take();
        *slot = Some(grown_tail(alloc, tail, group)?);
        self.kind = EntryKind::Group;
        self.period = t;
        Ok(())
    }

    /// Takes an offset.
    fn take_offset(
        &mut self,
        inst: &Instance,
        t: u64,
        i: u64,
        g: u64,
        v: u64,
    ) -> Result<Option<Refusal>, AllocError>
        requires part { IsPart inst.now self.old }
        ensures taken { IfOk result (λ told. IfNone told (TakesOffset inst.now self.old self.new t i g v)) }
        ensures refused { IfOk result (λ told. IfSome told (RefusedBy (IsNextOffset self.old.further t i g)
            (OffsetFits inst.now self.old.further t i g v))) }
    {
        if !self.is_next_offset(t, i, g) {
            return Ok(Some(Refusal::Misplaced));
        }
        if !self.has_enough(inst) {
            return Ok(Some(Refusal::OutOfRange));
        }
        inst.fits();
        let Some(offset) = offset_in(inst, self.tails.as_slice(), t, i, g, v) else {
            return Ok(Some(Refusal::OutOfRange));
        };
        self.offsets.push(offset)?;
        self.kind = EntryKind::Offset;
        Ok(None)
    }

    fn is_next_offset(&self, t: u64, i: u64, g: u64) -> bool
        requires { AllPairs OffsetBefore self.now.further.offsets }
        ensures { IsTrue result ↔ IsNextOffset self.now.further t i g }
    {
        self.kind.number() <= 3 && follows_offsets(self.offsets.as_slice(), t, i, g)
    }

    /// Takes a clique.
    fn take_clique(
        &mut self,
        alloc: Global,
        inst: &Instance,
        named: &[Named],
        t: u64,
        v: u64,
        members: &[u64],
    ) -> Result<Option<Refusal>, AllocError>
        requires part { IsPart inst.now self.old }
        requires named { AreNamed inst.now named.now }
        ensures taken { IfOk result
            (λ told. IfNone told (TakesClique inst.now self.old self.new t v members.now)) }
        ensures refused { IfOk result (λ told. IfSome told (RefusedBy (IsNextClique self.old.further t members.now)
            (CliqueFits inst.now self.old.further t v members.now))) }
    {
        if !follows_cliques(self.cliques.as_slice(), t, members) {
            return Ok(Some(Refusal::Misplaced));
        }
        if !self.may_have_clique(inst) {
            return Ok(Some(Refusal::OutOfRange));
        }
        let Some(clique) = clique_in(alloc, inst, named, t, v, members)? else {
            return Ok(Some(Refusal::OutOfRange));
        };
        self.cliques.push(clique)?;
        self.kind = EntryKind::Clique;
        Ok(None)
    }

    /// Whether the cliques are few, and the period of the last group has enough.
    fn may_have_clique(&self, inst: &Instance) -> bool
        requires part { IsPart inst.now self.now }
        ensures { IsTrue result ↔ ((length self.now.further.cliques < 4096)
            × HasEnough inst.now self.now.further.tails self.now.further.period) }
    {
        self.cliques.len() < MOST_CLIQUES && self.has_enough(inst)
    }
}

/// One tail less for each period.
fn no_tails(alloc: Global, periods: u32) -> Result<Vec<Option<GroupTail>>, AllocError>
    ensures { IfOk result (λ tails. tails.items ≡ replicate periods None) }
{
    let mut tails = Vec::new(alloc);
    for _t in 0..periods {
        tails.push(None)?;
    }
    Ok(tails)
}
