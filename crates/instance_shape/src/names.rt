//! Names, and the numbers of period and start keys.

ghost use Rattle.std.specs.Prelude.{◌≡◌, cond, Some, None};
ghost use Rattle.instance_shape.specs.Keys as spec;

/// A name has 1 to 128 bytes, none of them from 0 to 32 and none 127.
pub fn is_name(text: &str) -> bool
    ensures { result ≡ spec.is_name text.now }
{
    let bytes = text.as_bytes();
    if bytes.is_empty() || bytes.len() > 128 {
        return false;
    }
    for byte in bytes {
        if *byte <= 32 || *byte == 127 {
            return false;
        }
    }
    true
}

/// The number of a period or start key.
pub fn number_of(text: &str) -> Option<u32>
    ensures { result ≡ cond (spec.is_digits text.now) (Some (spec.number_of text.now)) None }
{
    let bytes = text.as_bytes();
    if bytes.is_empty() || bytes.len() > 9 {
        return None;
    }
    let mut number: u32 = 0;
    for byte in bytes {
        if *byte < 48 || *byte > 57 {
            return None;
        }
        number = number * 10 + (*byte as u32 - 48);
    }
    Some(number)
}
