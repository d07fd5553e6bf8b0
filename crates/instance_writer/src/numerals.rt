//! How the numbers of an instance are spelled.
ghost use Rattle.instance_writer.specs.text.Styles.{Style};

use crate::sink::Sink;
use fixed_num::Line;

/// Puts out the numbers that needn't be whole: contracts see how they are spelled.
pub trait Numerals {
    /// How they are spelled.
    ghost style: { Style };

    /// Puts out a count of 10^-12.
    fn put_count<S: Sink>(z: i128, sink: &mut S)
        requires ready { S.IsReady sink.old }
        ensures ready { S.IsReady sink.new }
        ensures text { S.Takes (style.count z) sink.old sink.new };

    /// Puts out a number of millionths.
    fn put_part<S: Sink>(m: u32, sink: &mut S)
        requires ready { S.IsReady sink.old }
        ensures ready { S.IsReady sink.new }
        ensures text { S.Takes (style.part m) sink.old sink.new };
}

/// Counts with 12 decimals, millionths with 6.
pub struct Decimals;

impl Numerals for Decimals {
    ghost use Rattle.instance_writer.specs.text.Styles.{decimals};

    ghost style = { decimals };

    fn put_count<S: Sink>(z: i128, sink: &mut S) {
        sink.put(Line::of_fixed(z).bytes());
    }

    fn put_part<S: Sink>(m: u32, sink: &mut S) {
        sink.put(Line::of_natural(u64::from(m / 1_000_000)).bytes());
        sink.put(b".");
        let digits = Line::of_natural(u64::from(m % 1_000_000));
        sink.put(&[b'0'; 6][..6 - digits.bytes().len()]);
        sink.put(digits.bytes());
    }
}
