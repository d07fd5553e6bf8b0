//! Where in a string.

ghost use Rattle.std.specs.Prelude.{◌≡◌, ◌<◌, ◌∷◌, [], Some, None, cond, option_map, IfSome};
ghost use Rattle.std.specs.Char.{IsScalar};
ghost use Rattle.json_machine.specs.Views.{moved, within_of, Holds, hex_of};
ghost use Rattle.json_grammar.specs.laws.Machine.{inside_step, may_close};
ghost use Rattle.json_grammar.specs.laws.Machine as machine;

#[derive(Clone, Copy, Drop)]
pub enum Within {
    Plain,
    Tails(u8),
    AfterE0,
    AfterEd,
    AfterF0,
    AfterF4,
    Escape,
    Unit1,
    Unit2(u32),
    Unit3(u32),
    Unit4(u32),
    Paired(u32),
    PairedEscape(u32),
    Low1(u32),
    Low2(u32),
    Low3(u32, u32),
    Low4(u32, u32),
}

/// What a byte of a string adds to the text.
#[derive(Clone, Copy, Drop)]
pub enum Told {
    Nothing,
    Byte(u8),
    Character(char),
}

impl Within {
    pub fn may_close(self) -> bool
        ensures { result ≡ may_close (within_of self) }
    {
        matches!(self, Within::Plain)
    }

    #[tactic(auto, unfolding(json_grammar::specs::laws::Machine::inside_step))]
    pub fn step(self, byte: u8) -> Option<(Within, Told)>
        requires { Holds self }
        ensures moves { option_map moved result ≡ inside_step (within_of self) byte }
        ensures holds { IfSome result (λ r. Holds r.0) }
    {
        match self {
            Within::Plain => plain_step(byte),
            Within::Tails(more) => tail_step(byte, more),
            Within::AfterE0 => narrow_tail(byte, 0xa0, 0xbf, 0),
            Within::AfterEd => narrow_tail(byte, 0x80, 0x9f, 0),
            Within::AfterF0 => narrow_tail(byte, 0x90, 0xbf, 1),
            Within::AfterF4 => narrow_tail(byte, 0x80, 0x8f, 1),
            Within::Escape => escape_step(byte),
            Within::Unit1 => {
                let digit = hex(byte)?;
                Some((Within::Unit2(digit), Told::Nothing))
            }
            Within::Unit2(value) => second_digit(byte, value),
            Within::Unit3(value) => Some((Within::Unit4(value * 16 + hex(byte)?), Told::Nothing)),
            Within::Unit4(value) => last_digit(byte, value),
            Within::Paired(high) => match byte {
                b'\\' => Some((Within::PairedEscape(high), Told::Nothing)),
                _ => None,
            },
            Within::PairedEscape(high) => match byte {
                b'u' => Some((Within::Low1(high), Told::Nothing)),
                _ => None,
            },
            Within::Low1(high) => match byte {
                b'd' | b'D' => Some((Within::Low2(high), Told::Nothing)),
                _ => None,
            },
            Within::Low2(high) => second_low_digit(byte, high),
            Within::Low3(high, value) => Some((
                Within::Low4(high, value * 16 + hex(byte)?),
                Told::Nothing,
            )),
            Within::Low4(high, value) => last_low_digit(byte, high, value),
        }
    }
}

#[tactic(auto, unfolding(json_grammar::specs::laws::Machine::inside_step))]
fn plain_step(byte: u8) -> Option<(Within, Told)>
    ensures moves { option_map moved result ≡ inside_step machine.plain byte }
    ensures holds { IfSome result (λ r. Holds r.0) }
{
    let next = match byte {
        b'\\' => return Some((Within::Escape, Told::Nothing)),
        0..=0x1f | b'"' | 0x80..=0xc1 | 0xf5..=0xff => return None,
        0x20..=0x7f => Within::Plain,
        0xc2..=0xdf => Within::Tails(0),
        0xe0 => Within::AfterE0,
        0xed => Within::AfterEd,
        0xe1..=0xef => Within::Tails(1),
        0xf0 => Within::AfterF0,
        0xf1..=0xf3 => Within::Tails(2),
        0xf4 => Within::AfterF4,
    };
    Some((next, Told::Byte(byte)))
}

/// A byte of UTF-8 behind the first one, with so many more behind it.
#[tactic(auto, unfolding(json_grammar::specs::laws::Machine::inside_step))]
fn tail_step(byte: u8, more: u8) -> Option<(Within, Told)>
    ensures moves { option_map moved result ≡ inside_step (machine.tails more) byte }
    ensures holds { IfSome result (λ r. Holds r.0) }
{
    if byte < 0x80 || 0xbf < byte {
        return None;
    }
    if more == 0 {
        return Some((Within::Plain, Told::Byte(byte)));
    }
    Some((Within::Tails(more - 1), Told::Byte(byte)))
}

/// The same behind a first byte that narrows the second one.
fn narrow_tail(byte: u8, low: u8, high: u8, more: u8) -> Option<(Within, Told)>
    ensures moves { option_map moved result
        ≡ cond (machine.between low high byte) (Some (machine.tails more, byte ∷ [])) None }
    ensures holds { IfSome result (λ r. Holds r.0) }
{
    if byte < low || high < byte {
        return None;
    }
    Some((Within::Tails(more), Told::Byte(byte)))
}

/// The second digit of `\u`: no low surrogate comes first.
#[tactic(auto, unfolding(json_grammar::specs::laws::Machine::inside_step))]
fn second_digit(byte: u8, value: u32) -> Option<(Within, Told)>
    requires { value < 16 }
    ensures moves { option_map moved result ≡ inside_step (machine.unit2 value) byte }
    ensures holds { IfSome result (λ r. Holds r.0) }
{
    let value = value * 16 + hex(byte)?;
    if 0xdc <= value && value <= 0xdf {
        return None;
    }
    Some((Within::Unit3(value), Told::Nothing))
}

/// The last digit of `\u`: a high surrogate waits for a low one.
#[tactic(auto, unfolding(json_grammar::specs::laws::Machine::inside_step))]
fn last_digit(byte: u8, value: u32) -> Option<(Within, Told)>
    requires { Holds (Within.Unit4 value) }
    ensures moves { option_map moved result ≡ inside_step (machine.unit4 value) byte }
    ensures holds { IfSome result (λ r. Holds r.0) }
{
    let unit = value * 16 + hex(byte)?;
    if 0xd800 <= unit && unit <= 0xdbff {
        return Some((Within::Paired(unit), Told::Nothing));
    }
    Some((Within::Plain, Told::Character(character(unit))))
}

/// The second digit of the low surrogate: with it, it is one.
#[tactic(auto, unfolding(json_grammar::specs::laws::Machine::inside_step))]
fn second_low_digit(byte: u8, high: u32) -> Option<(Within, Told)>
    requires { Holds (Within.Low2 high) }
    ensures moves { option_map moved result ≡ inside_step (machine.low2 high) byte }
    ensures holds { IfSome result (λ r. Holds r.0) }
{
    let digit = hex(byte)?;
    if digit < 12 {
        return None;
    }
    Some((Within::Low3(high, 13 * 16 + digit), Told::Nothing))
}

/// The last digit of the low surrogate, and the character of the pair.
#[tactic(auto, unfolding(json_grammar::specs::laws::Machine::inside_step))]
fn last_low_digit(byte: u8, high: u32, value: u32) -> Option<(Within, Told)>
    requires { Holds (Within.Low4 high value) }
    ensures moves { option_map moved result ≡ inside_step (machine.low4 high value) byte }
    ensures holds { IfSome result (λ r. Holds r.0) }
{
    let low = value * 16 + hex(byte)?;
    let code = 0x10000 + (high - 0xd800) * 0x400 + (low - 0xdc00);
    Some((Within::Plain, Told::Character(character(code))))
}

#[tactic(auto, unfolding(json_grammar::specs::laws::Machine::inside_step))]
fn escape_step(byte: u8) -> Option<(Within, Told)>
    ensures moves { option_map moved result ≡ inside_step machine.escape byte }
    ensures holds { IfSome result (λ r. Holds r.0) }
{
    let stands_for = match byte {
        b'"' | b'\\' | b'/' => byte,
        b'b' => 8,
        b'f' => 12,
        b'n' => b'\n',
        b'r' => b'\r',
        b't' => b'\t',
        b'u' => return Some((Within::Unit1, Told::Nothing)),
        _ => return None,
    };
    Some((Within::Plain, Told::Byte(stands_for)))
}

fn hex(byte: u8) -> Option<u32>
    ensures { result ≡ hex_of byte }
{
    (byte as char).to_digit(16)
}

fn character(code: u32) -> char
    requires { IsScalar code }
    ensures { result ≡ code }
{
    let Some(c) = char::from_u32(code) else {
        unreachable!()
    };
    c
}
