//! Commas, keys, names and numbers are put out.
ghost use Rattle.std.specs.Prelude.{[], ◌∷◌, ◌++◌, decimal};
ghost use Rattle.json_grammar.specs.laws.Value.{Value};
ghost use Rattle.json_grammar.specs.laws.Spelling.{escaped, quoted};
ghost use Rattle.instance_writer.specs.text.Written.{whole_number, count_number};
ghost use Rattle.instance_writer.specs.Steps.{separator, values_text};

use crate::numerals::Numerals;
use crate::sink::Sink;
use fixed_num::Line;

/// The comma before an element or a field, unless it is the first.
pub fn separate<S: Sink>(first: bool, sink: &mut S)
    requires ready { S.IsReady sink.old }
    ensures ready { S.IsReady sink.new }
    ensures text { S.Takes (separator first) sink.old sink.new }
{
    if !first {
        sink.put(b",");
    }
}

/// A backslash before each quote and backslash.
fn put_escaped<S: Sink>(text: &[u8], sink: &mut S)
    requires ready { S.IsReady sink.old }
    ensures ready { S.IsReady sink.new }
    ensures text { S.Takes (escaped text.now) sink.old sink.new }
{
    for b in text {
        put_byte(*b, sink);
    }
}

fn put_byte<S: Sink>(b: u8, sink: &mut S)
    requires ready { S.IsReady sink.old }
    ensures ready { S.IsReady sink.new }
    ensures text { S.Takes (escaped (b ∷ [])) sink.old sink.new }
{
    if b == b'"' || b == b'\\' {
        sink.put(&[b'\\', b]);
    } else {
        sink.put(&[b]);
    }
}

/// A text with its quotes.
fn put_quoted<S: Sink>(text: &[u8], sink: &mut S)
    requires ready { S.IsReady sink.old }
    ensures ready { S.IsReady sink.new }
    ensures text { S.Takes (quoted text.now) sink.old sink.new }
{
    sink.put(b"\"");
    put_escaped(text, sink);
    sink.put(b"\"");
}

/// A key of an object, up to its colon.
pub fn put_key<S: Sink>(first: bool, key: &[u8], sink: &mut S)
    requires ready { S.IsReady sink.old }
    ensures ready { S.IsReady sink.new }
    ensures text { S.Takes (separator first ++ (quoted key.now ++ 58 ∷ [])) sink.old sink.new }
{
    separate(first, sink);
    put_quoted(key, sink);
    sink.put(b":");
}

/// A period or a start as a key.
pub fn put_number_key<S: Sink>(first: bool, n: u32, sink: &mut S)
    requires ready { S.IsReady sink.old }
    ensures ready { S.IsReady sink.new }
    ensures text { S.Takes (separator first ++ (quoted (decimal n) ++ 58 ∷ [])) sink.old sink.new }
{
    put_key(first, Line::of_natural(u64::from(n)).bytes(), sink);
}

/// A text in a list.
pub fn put_text<S: Sink>(first: bool, text: &[u8], sink: &mut S)
    requires ready { S.IsReady sink.old }
    ensures ready { S.IsReady sink.new }
    ensures text { S.Takes (values_text first (Value.text text.now ∷ [])) sink.old sink.new }
{
    separate(first, sink);
    put_quoted(text, sink);
}

/// A whole number in a list.
pub fn put_whole<S: Sink>(first: bool, n: u32, sink: &mut S)
    requires ready { S.IsReady sink.old }
    ensures ready { S.IsReady sink.new }
    ensures text { S.Takes (values_text first (whole_number n ∷ [])) sink.old sink.new }
{
    separate(first, sink);
    sink.put(Line::of_natural(u64::from(n)).bytes());
}

/// A count in a list.
pub fn put_count<N: Numerals, S: Sink>(first: bool, z: i128, sink: &mut S)
    requires ready { S.IsReady sink.old }
    ensures ready { S.IsReady sink.new }
    ensures text { S.Takes (values_text first (count_number N.style z ∷ [])) sink.old sink.new }
{
    separate(first, sink);
    N::put_count(z, sink);
}
