//! A price list: contracts see the prices by place, as `PriceList`.
ghost use Rattle.std.specs.Prelude.{◌≡◌, ◌≤◌, ◌<◌, ◌+◌, ◌-◌, ◌*◌, length, IfOk, OnOk, OnErr, IsOk, option_map, Some};
ghost use Rattle.std.specs.Prelude.{None, replicate};
ghost use Rattle.lagrange_bound.specs.Prices.{IsPriceList, IsTail, zero_list, up_of, lo_of, tail_of, ex_of};
ghost use Rattle.lagrange_bound.specs.Changes.{with_up, with_lo, with_tail, IsExSet, IsBandPlace, IsExPlace};

use crate::ex_list::{ex_place, insert_at, replace_at};
use crate::{ExPrice, Tail};
use instance_model::Instance;
use std::alloc::{AllocError, Global};
use std::marker::Model;

/// Prices on the limits of bands, a tail or none for each period, and prices on exclusions.
///
/// Seen as a list of `up` and one of `lo`, by resource, then period, one of tails by period, and one of the prices of
/// exclusions that aren't 0, by exclusion, then period.
#[derive(Drop)]
pub struct Prices {
    up: Vec<u32>,
    lo: Vec<u32>,
    tails: Vec<Option<Tail>>,
    ex: Vec<ExPrice>,
}

impl Model for Prices {
    ghost use Rattle.lagrange_bound.specs.Prices.{PriceList};

    ghost Value = { PriceList };

    ghost view = { λ p. record { up = p.up.items; lo = p.lo.items; tails = p.tails.items; ex = p.ex.items } };
}

impl Clone for Prices {
    ghost is_clone = { λ prices copy. copy ≡ prices };

    fn clone(&self) -> Result<Prices, AllocError> {
        Ok(Prices {
            up: self.up.clone()?,
            lo: self.lo.clone()?,
            tails: self.tails.clone()?,
            ex: self.ex.clone()?,
        })
    }
}

impl Prices {
    /// The list of zeros, without tails.
    pub fn zero(alloc: Global, inst: &Instance) -> Result<Prices, AllocError>
        ensures value { IfOk result (λ prices. prices ≡ zero_list inst.now) }
        ensures in_range { IfOk result (λ prices. IsPriceList inst.now prices) }
    {
        let bands = inst.resources() as usize * inst.periods() as usize;
        Ok(Prices {
            up: vec![in alloc; 0; bands]?,
            lo: vec![in alloc; 0; bands]?,
            tails: no_tails(alloc, inst.periods())?,
            ex: Vec::new(alloc),
        })
    }

    /// The price on the upper limit of resource `c` in period `t`.
    pub fn up(&self, inst: &Instance, c: u32, t: u32) -> u32
        requires prices { IsPriceList inst.now self.now }
        requires place { IsBandPlace inst.now c t }
        ensures value { result ≡ up_of inst.now self.now c t }
        ensures small { result ≤ 1_000_000_000 }
    {
        self.up[place_in(inst, c, t)]
    }

    /// The price on the lower limit of resource `c` in period `t`.
    pub fn lo(&self, inst: &Instance, c: u32, t: u32) -> u32
        requires prices { IsPriceList inst.now self.now }
        requires place { IsBandPlace inst.now c t }
        ensures value { result ≡ lo_of inst.now self.now c t }
        ensures small { result ≤ 1_000_000_000 }
    {
        self.lo[place_in(inst, c, t)]
    }

    /// The tail of period `t`.
    pub fn tail(&self, inst: &Instance, t: u32) -> Option<&Tail>
        requires prices { IsPriceList inst.now self.now }
        requires from { 1 ≤ t }
        requires to { t ≤ inst.now.periods }
        ensures { option_map (λ tail. tail.now) result ≡ tail_of self.now t }
    {
        self.tails[t as usize - 1].as_ref()
    }

    /// The price of exclusion `e` in period `t`: 0 where it has none, as outside its season.
    pub fn ex(&self, inst: &Instance, e: u32, t: u32) -> u32
        requires prices { IsPriceList inst.now self.now }
        ensures value { result ≡ ex_of self.now.ex e t }
        ensures small { result ≤ 1_000_000_000 }
    {
        match ex_place(self.ex.as_slice(), e, t) {
            Ok(place) => self.ex[place].value,
            Err(_) => 0,
        }
    }

    /// The prices of exclusions that aren't 0, by exclusion, then period.
    pub fn ex_prices(&self) -> &[ExPrice]
        ensures { result.now ≡ self.now.ex }
    {
        self.ex.as_slice()
    }

    /// Sets the price on the upper limit of resource `c` in period `t`.
    pub fn set_up(&mut self, inst: &Instance, c: u32, t: u32, v: u32)
        requires prices { IsPriceList inst.now self.old }
        requires place { IsBandPlace inst.now c t }
        requires small { v ≤ 1_000_000_000 }
        ensures changed { self.new ≡ with_up inst.now self.old c t v }
        ensures in_range { IsPriceList inst.now self.new }
    {
        let place = place_in(inst, c, t);
        self.up[place] = v;
    }

    /// Sets the price on the lower limit of resource `c` in period `t`.
    pub fn set_lo(&mut self, inst: &Instance, c: u32, t: u32, v: u32)
        requires prices { IsPriceList inst.now self.old }
        requires place { IsBandPlace inst.now c t }
        requires small { v ≤ 1_000_000_000 }
        ensures changed { self.new ≡ with_lo inst.now self.old c t v }
        ensures in_range { IsPriceList inst.now self.new }
    {
        let place = place_in(inst, c, t);
        self.lo[place] = v;
    }

    /// Sets the tail of period `t`.
    pub fn set_tail(&mut self, inst: &Instance, t: u32, tail: Option<Tail>)
        requires prices { IsPriceList inst.now self.old }
        requires from { 1 ≤ t }
        requires to { t ≤ inst.now.periods }
        requires tail { (some : _) → tail ≡ Some some → IsTail inst.now t some }
        ensures changed { self.new ≡ with_tail self.old t tail }
        ensures in_range { IsPriceList inst.now self.new }
    {
        self.tails[t as usize - 1] = tail;
    }

    /// Sets the price of exclusion `e` in period `t`, which belongs to its season. A
    /// list that is refused is left as it was.
    pub fn set_ex(&mut self, inst: &Instance, e: u32, t: u32, v: u32) -> Result<(), AllocError>
        requires prices { IsPriceList inst.now self.old }
        requires place { IsExPlace inst.now e t }
        requires small { v ≤ 1_000_000_000 }
        ensures changed { OnOk result (IsExSet self.old self.new e t v) }
        ensures in_range { OnOk result (IsPriceList inst.now self.new) }
        ensures same { OnErr result (self.new ≡ self.old) }

        // To take a price back takes no memory.
        ensures zero { v ≡ 0 → IsOk result }
    {
        let x = ExPrice {
            exclusion: e,
            period: t,
            value: v,
        };
        match ex_place(self.ex.as_slice(), e, t) {
            Ok(place) => {
                replace_at(&mut self.ex, place, x);
                Ok(())
            }
            Err(place) => insert_at(&mut self.ex, place, x),
        }
    }
}

/// One tail less for each period.
fn no_tails(alloc: Global, periods: u32) -> Result<Vec<Option<Tail>>, AllocError>
    ensures { IfOk result (λ tails. tails.items ≡ replicate periods None) }
{
    let mut tails = Vec::new(alloc);
    for _t in 0..periods {
        tails.push(None)?;
    }
    Ok(tails)
}

/// The place of resource `c` in period `t`.
fn place_in(inst: &Instance, c: u32, t: u32) -> usize
    requires { IsBandPlace inst.now c t }
    ensures value { result ≡ c * inst.now.periods + (t - 1) }
    ensures within { result < length inst.now.resource_names * inst.now.periods }
{
    let _few = inst.resources();
    c as usize * inst.periods() as usize + (t as usize - 1)
}
