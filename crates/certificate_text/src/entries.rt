//! The entries of a price list are written.
ghost use Rattle.std.specs.Prelude.{◌≡◌, ◌+◌, ◌<◌, ◌≤◌, [], ◌∷◌, length, map, IsTrue};
ghost use Rattle.plan_desk.specs.Written.{WritesText};
ghost use Rattle.lagrange_bound.specs.Prices.{IsPriceList, tail_of};
ghost use Rattle.lagrange_bound.specs.Changes.{IsBandPlace};
ghost use Rattle.certificate_text.specs.Text.{text_of_lines, limit_lines, tail_lines, ex_line, entry_lines};
ghost use Rattle.certificate_text.specs.Steps.{limit_table, limit_form, limit_of, price_lines, row_lines};

use crate::limits::limit_price;
use crate::put::{limit_line, line_of_ex, put_line};
use certificate_lines::{Side, write_tail};
use instance_model::Instance;
use lagrange_bound::{ExPrice, Prices};
use plan_desk::{Desk, Failed};

pub fn write_entries<D: Desk>(inst: &Instance, prices: &Prices, desk: &mut D) -> Result<(), Failed>
    requires opened { IsTrue (D.shows desk.old).output.opened }
    requires in_range { IsPriceList inst.now prices.now }
    ensures { WritesText (text_of_lines (entry_lines inst.now prices.now)) (D.shows desk.old)
        (D.shows desk.new) result }
{
    write_limits(inst, prices, Side::Over, desk)?;
    write_limits(inst, prices, Side::Under, desk)?;
    write_tails(inst, prices, desk)?;
    write_ex(prices.ex_prices(), desk)
}

/// The prices on the upper or on the lower limits.
fn write_limits<D: Desk>(
    inst: &Instance,
    prices: &Prices,
    side: Side,
    desk: &mut D,
) -> Result<(), Failed>
    requires opened { IsTrue (D.shows desk.old).output.opened }
    requires in_range { IsPriceList inst.now prices.now }
    ensures { WritesText
        (text_of_lines (limit_lines (limit_form side) inst.now.periods 0 (limit_table side prices.now)))
        (D.shows desk.old) (D.shows desk.new) result }
{
    for c in 0..inst.resources() {
        write_row(inst, prices, side, c, desk)?;
    }
    Ok(())
}

/// Those of one resource.
fn write_row<D: Desk>(
    inst: &Instance,
    prices: &Prices,
    side: Side,
    c: u32,
    desk: &mut D,
) -> Result<(), Failed>
    requires opened { IsTrue (D.shows desk.old).output.opened }
    requires in_range { IsPriceList inst.now prices.now }
    requires resource { c < length inst.now.resource_names }
    ensures { WritesText (text_of_lines (row_lines inst.now side prices.now c)) (D.shows desk.old)
        (D.shows desk.new) result }
{
    for u in 0..inst.periods() {
        write_limit(inst, prices, side, c, u + 1, desk)?;
    }
    Ok(())
}

/// The one of a resource and a period, unless it is 0.
fn write_limit<D: Desk>(
    inst: &Instance,
    prices: &Prices,
    side: Side,
    c: u32,
    t: u32,
    desk: &mut D,
) -> Result<(), Failed>
    requires opened { IsTrue (D.shows desk.old).output.opened }
    requires in_range { IsPriceList inst.now prices.now }
    requires place { IsBandPlace inst.now c t }
    ensures { WritesText (text_of_lines (price_lines side (c + 1) t (limit_of inst.now side prices.now c t)))
        (D.shows desk.old) (D.shows desk.new) result }
{
    let v = limit_price(inst, prices, side, c, t);
    if v == 0 {
        return Ok(());
    }
    put_line(limit_line(side, c, t, v), desk)
}

fn write_tails<D: Desk>(inst: &Instance, prices: &Prices, desk: &mut D) -> Result<(), Failed>
    requires opened { IsTrue (D.shows desk.old).output.opened }
    requires in_range { IsPriceList inst.now prices.now }
    ensures { WritesText (text_of_lines (tail_lines 1 prices.now.tails)) (D.shows desk.old) (D.shows desk.new) result }
{
    for u in 0..inst.periods() {
        write_tail_of(inst, prices, u + 1, desk)?;
    }
    Ok(())
}

/// The tail of a period, where there is one.
fn write_tail_of<D: Desk>(
    inst: &Instance,
    prices: &Prices,
    t: u32,
    desk: &mut D,
) -> Result<(), Failed>
    requires opened { IsTrue (D.shows desk.old).output.opened }
    requires in_range { IsPriceList inst.now prices.now }
    requires from { 1 ≤ t }
    requires to { t ≤ inst.now.periods }
    ensures { WritesText (text_of_lines (tail_lines t (tail_of prices.now t ∷ []))) (D.shows desk.old)
        (D.shows desk.new) result }
{
    match prices.tail(inst, t) {
        Some(tail) => write_tail(t, tail.weight, tail.places.as_slice(), desk),
        None => Ok(()),
    }
}

fn write_ex<D: Desk>(ex: &[ExPrice], desk: &mut D) -> Result<(), Failed>
    requires opened { IsTrue (D.shows desk.old).output.opened }
    ensures { WritesText (text_of_lines (map ex_line ex.now)) (D.shows desk.old) (D.shows desk.new) result }
{
    for x in ex {
        put_line(line_of_ex(*x), desk)?;
    }
    Ok(())
}
