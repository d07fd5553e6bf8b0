//! How the numbers of a drawn instance are spelled.

ghost use Rattle.std.specs.Prelude.{decimal};
ghost use Rattle.instance_gen.specs.Texts.{first_text};

use fixed_num::Line;
use instance_writer::{Numerals, Sink};

/// Counts that are whole numbers of units as these numbers, and millionths with as many decimals as they need, up to 2.
pub struct PlainNumbers;

/// Puts out a whole number.
fn put_number<S: Sink>(n: u32, sink: &mut S)
    requires ready { S.IsReady sink.old }
    ensures ready { S.IsReady sink.new }
    ensures text { S.Takes (decimal n) sink.old sink.new }
{
    sink.put(Line::of_natural(u64::from(n)).bytes());
}

/// Puts out a number of millionths to its first decimal.
fn put_first<S: Sink>(m: u32, sink: &mut S)
    requires ready { S.IsReady sink.old }
    ensures ready { S.IsReady sink.new }
    ensures text { S.Takes (first_text m) sink.old sink.new }
{
    put_number(m / 1_000_000, sink);
    sink.put(b".");
    put_number(m / 100_000 % 10, sink);
}

impl Numerals for PlainNumbers {
    ghost use Rattle.instance_gen.specs.Texts.{plain_numbers};

    ghost style = { plain_numbers };

    fn put_count<S: Sink>(z: i128, sink: &mut S) {
        let units = z.unsigned_abs() / 1_000_000_000_000;
        sink.put(Line::of_int(units as i128).bytes());
    }

    fn put_part<S: Sink>(m: u32, sink: &mut S) {
        put_first(m, sink);
        if m % 100_000 != 0 {
            put_number(m / 10_000 % 10, sink);
        }
    }
}
