//! The lengths of the entries of price lists.
ghost use Rattle.std.specs.Prelude.{◌≡◌, ◌+◌, ◌<◌, ◌≤◌, [], ◌∷◌, length, map};
ghost use Rattle.lagrange_bound.specs.Prices.{IsPriceList, tail_of};
ghost use Rattle.lagrange_bound.specs.Changes.{IsBandPlace};
ghost use Rattle.certificate_lines.specs.declared.line.CertificateLine.{CertificateLine};
ghost use Rattle.certificate_lines.specs.Spelling.{words};
ghost use Rattle.certificate_text.specs.Text.{line_text, text_of_lines, limit_lines, tail_lines, ex_line, entry_lines};
ghost use Rattle.certificate_text.specs.Steps.{limit_table, limit_form, limit_of, price_lines, row_lines};
ghost use Rattle.certificate_text.specs.Lengths.{counted_length};

use crate::limits::limit_price;
use crate::line_lengths::{ex_length, limit_length, word_length};
use certificate_tree::Side;
use instance_model::Instance;
use lagrange_bound::{ExPrice, Prices, Tail};

/// All entries of a price list.
pub fn entries_length(inst: &Instance, prices: &Prices) -> u64
    requires { IsPriceList inst.now prices.now }
    ensures { result ≡ counted_length (text_of_lines (entry_lines inst.now prices.now)) }
{
    let upper = limits_length(inst, prices, Side::Over);
    let lower = limits_length(inst, prices, Side::Under);
    let tails = tails_length(inst, prices);
    let ex = exs_length(prices.ex_prices());
    upper.saturating_add(lower.saturating_add(tails.saturating_add(ex)))
}

/// The prices on the upper or on the lower limits.
fn limits_length(inst: &Instance, prices: &Prices, side: Side) -> u64
    requires { IsPriceList inst.now prices.now }
    ensures { result ≡ counted_length
        (text_of_lines (limit_lines (limit_form side) inst.now.periods 0 (limit_table side prices.now))) }
{
    let mut total: u64 = 0;
    for c in 0..inst.resources() {
        total = total.saturating_add(row_length(inst, prices, side, c));
    }
    total
}

/// Those of one resource.
fn row_length(inst: &Instance, prices: &Prices, side: Side, c: u32) -> u64
    requires in_range { IsPriceList inst.now prices.now }
    requires resource { c < length inst.now.resource_names }
    ensures { result ≡ counted_length (text_of_lines (row_lines inst.now side prices.now c)) }
{
    let mut total: u64 = 0;
    for u in 0..inst.periods() {
        total = total.saturating_add(price_length(inst, prices, side, c, u + 1));
    }
    total
}

/// The one of a resource and a period, unless it is 0.
fn price_length(inst: &Instance, prices: &Prices, side: Side, c: u32, t: u32) -> u64
    requires in_range { IsPriceList inst.now prices.now }
    requires place { IsBandPlace inst.now c t }
    ensures { result ≡ counted_length
        (text_of_lines (price_lines side (c + 1) t (limit_of inst.now side prices.now c t))) }
{
    let v = limit_price(inst, prices, side, c, t);
    if v == 0 {
        return 0;
    }
    limit_length(side, u64::from(c) + 1, u64::from(t), u64::from(v))
}

/// All tails.
fn tails_length(inst: &Instance, prices: &Prices) -> u64
    requires { IsPriceList inst.now prices.now }
    ensures { result ≡ counted_length (text_of_lines (tail_lines 1 prices.now.tails)) }
{
    let mut total: u64 = 0;
    for u in 0..inst.periods() {
        total = total.saturating_add(tail_length_at(inst, prices, u + 1));
    }
    total
}

/// The tail of a period, where there is one.
fn tail_length_at(inst: &Instance, prices: &Prices, t: u32) -> u64
    requires in_range { IsPriceList inst.now prices.now }
    requires from { 1 ≤ t }
    requires to { t ≤ inst.now.periods }
    ensures { result ≡ counted_length (text_of_lines (tail_lines t (tail_of prices.now t ∷ []))) }
{
    match prices.tail(inst, t) {
        Some(tail) => tail_length(t, tail),
        None => 0,
    }
}

/// The line of a tail.
fn tail_length(t: u32, tail: &Tail) -> u64
    ensures { result ≡ counted_length (line_text (CertificateLine.Tail t tail.now.weight tail.now.places)) }
{
    let front = word_length(u64::from(t)) + word_length(u64::from(tail.weight)) + 5;
    front.saturating_add(places_length(tail.places.as_slice()))
}

/// The scenarios of a tail.
fn places_length(places: &[u32]) -> u64
    ensures { result ≡ counted_length (words places.now) }
{
    let mut total: u64 = 0;
    for place in places {
        total = total.saturating_add(word_length(u64::from(*place)));
    }
    total
}

/// All prices of exclusions.
fn exs_length(ex: &[ExPrice]) -> u64
    ensures { result ≡ counted_length (text_of_lines (map ex_line ex.now)) }
{
    let mut total: u64 = 0;
    for x in ex {
        total = total.saturating_add(ex_length(*x));
    }
    total
}
