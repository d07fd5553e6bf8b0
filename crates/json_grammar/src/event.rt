//! What a reader that goes over the bytes once tells of a text.

use crate::num_text::NumText;
use crate::text::Text;

/// A part of a JSON text. `at` is the offset of its first byte; where `end` isn't told, it follows from the event: the
/// offset after the bracket or brace, after the letters of the word, or after the bytes of the number.
#[derive(Drop)]
pub enum Event {
    /// The opening bracket of a list, or the opening brace of an object.
    Begin { at: u64, object: bool },
    /// The closing bracket or brace of what was begun last.
    Finish { at: u64 },
    /// A key with its quotes; the escapes of the text are resolved.
    Key { at: u64, end: u64, text: Text },
    Null { at: u64 },
    Bool { at: u64, value: bool },
    Num { at: u64, num: NumText },
    /// A string with its quotes; the escapes of the text are resolved.
    Text { at: u64, end: u64, text: Text },
}
