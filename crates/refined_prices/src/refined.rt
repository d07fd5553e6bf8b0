//! A refined price list: contracts see its parts, as `RefinedList`.
ghost use Rattle.std.specs.Prelude.{◌≡◌, ◌≤◌, IfOk, option_map, replicate, None};
ghost use Rattle.refined_prices.specs.Offsets.{group_tail_at};
ghost use Rattle.refined_prices.specs.RefinedLists.{IsRefinedList, zero_refined};

use crate::{Clique, GroupTail, Offset};
use instance_model::Instance;
use lagrange_bound::Prices;
use std::alloc::{AllocError, Global};
use std::marker::Model;

/// Prices on limits and exclusions, whether caps of lower limits count, a tail by groups or none for each period,
/// offsets, and cliques with their prices.
///
/// Seen as a list of prices without tails of its own, the tails by period, the offsets that aren't 0, by period, then
/// intervention, then group, and the cliques, by period, then members.
#[derive(Drop)]
pub struct RefinedPrices {
    prices: Prices,
    capped: bool,
    tails: Vec<Option<GroupTail>>,
    offsets: Vec<Offset>,
    cliques: Vec<Clique>,
}

impl Model for RefinedPrices {
    ghost use Rattle.refined_prices.specs.RefinedLists.{RefinedList};

    ghost Value = { RefinedList };

    ghost view = { λ p. record {
      prices = p.prices;
      capped = p.capped;
      tails = p.tails.items;
      offsets = p.offsets.items;
      cliques = p.cliques.items;
    } };
}

impl Clone for RefinedPrices {
    ghost is_clone = { λ list copy. copy ≡ list };

    fn clone(&self) -> Result<RefinedPrices, AllocError> {
        Ok(RefinedPrices {
            prices: self.prices.clone()?,
            capped: self.capped,
            tails: self.tails.clone()?,
            offsets: self.offsets.clone()?,
            cliques: self.cliques.clone()?,
        })
    }
}

impl RefinedPrices {
    /// The list of zeros with caps, without tails, offsets and cliques.
    pub fn zero(alloc: Global, inst: &Instance) -> Result<RefinedPrices, AllocError>
        ensures value { IfOk result (λ list. list ≡ zero_refined inst.now) }
        ensures in_range { IfOk result (λ list. IsRefinedList inst.now list) }
    {
        Ok(RefinedPrices {
            prices: Prices::zero(alloc, inst)?,
            capped: true,
            tails: no_tails(alloc, inst.periods())?,
            offsets: Vec::new(alloc),
            cliques: Vec::new(alloc),
        })
    }

    /// The list of these parts.
    pub fn from_parts(
        prices: Prices,
        capped: bool,
        tails: Vec<Option<GroupTail>>,
        offsets: Vec<Offset>,
        cliques: Vec<Clique>,
    ) -> RefinedPrices
        ensures prices { result.prices ≡ prices }
        ensures capped { result.capped ≡ capped }
        ensures tails { result.tails ≡ tails.items }
        ensures offsets { result.offsets ≡ offsets.items }
        ensures cliques { result.cliques ≡ cliques.items }
    {
        RefinedPrices {
            prices,
            capped,
            tails,
            offsets,
            cliques,
        }
    }

    /// The prices on limits and exclusions.
    pub fn prices(&self) -> &Prices
        ensures { result.now ≡ self.now.prices }
    {
        &self.prices
    }

    /// Whether no load counts for more than the cap at the price of a lower limit.
    pub fn capped(&self) -> bool
        ensures { result ≡ self.now.capped }
    {
        self.capped
    }

    /// The tails, by period.
    pub fn tails(&self) -> &[Option<GroupTail>]
        ensures { result.now ≡ self.now.tails }
    {
        self.tails.as_slice()
    }

    /// The tail of period `t`.
    pub fn tail(&self, inst: &Instance, t: u32) -> Option<&GroupTail>
        requires list { IsRefinedList inst.now self.now }
        requires from { 1 ≤ t }
        requires to { t ≤ inst.now.periods }
        ensures { option_map (λ tail. tail.now) result ≡ group_tail_at self.now.tails t }
    {
        self.tails[t as usize - 1].as_ref()
    }

    /// The offsets that aren't 0, by period, then intervention, then group.
    pub fn offsets(&self) -> &[Offset]
        ensures { result.now ≡ self.now.offsets }
    {
        self.offsets.as_slice()
    }

    /// The cliques, by period, then members.
    pub fn cliques(&self) -> &[Clique]
        ensures { result.now ≡ self.now.cliques }
    {
        self.cliques.as_slice()
    }
}

/// One tail less for each period.
fn no_tails(alloc: Global, periods: u32) -> Result<Vec<Option<GroupTail>>, AllocError>
    ensures { IfOk result (λ tails. tails.items ≡ replicate periods None) }
{
    let mut tails = Vec::new(alloc);
    for _t in 0..periods {
        tails.push(None)?;
    }
    Ok(tails)
}
