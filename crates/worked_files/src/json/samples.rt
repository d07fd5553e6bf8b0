//! Texts, and where each ends or has its fault, worked out by hand.

use json_grammar::TextFault;

const fn syntax(at: u64) -> Result<u64, TextFault> {
    Err(TextFault::Syntax { at })
}

const fn deep(at: u64) -> Result<u64, TextFault> {
    Err(TextFault::TooDeep { at })
}

/// Bytes, and the end of their tree or their fault.
pub fn samples() -> [(&'static [u8], Result<u64, TextFault>); 24] {
    [
        (
            b"{\"a\" : [1, -2.5e+3, \"\\u00e9\\ud83d\\ude00\", true] }",
            Ok(49),
        ),
        (b" null ", Ok(5)),
        (b"\"\xc3\xa9\"", Ok(4)),
        (b"", syntax(0)),
        (b"\xef\xbb\xbf1", syntax(0)),
        (b"{\"T\":1,\"T\":2", syntax(12)),
        (b"{\"T\":01}", syntax(6)),
        (b"{\"T\":1}x", syntax(7)),
        (b"[1,]", syntax(3)),
        (b"\"ab", syntax(3)),
        (b"-", syntax(1)),
        (b"1.", syntax(2)),
        (b"1e", syntax(2)),
        (b"\"\\udc00\"", syntax(4)),
        (b"\"\\ud800x", syntax(7)),
        (b"\"\\ud800\"", syntax(7)),
        (b"\"\\ud800\\u0041\"", syntax(9)),
        (b"\"\xc0\x80\"", syntax(1)),
        (b"\"\xed\xa0\x80\"", syntax(2)),
        (b"[[[[[[[[[[[[[[[[", syntax(16)),
        (b"[[[[[[[[[[[[[[[[[", deep(16)),
        (b"{\"x\":[[[[[[[[[[[[[[[[", deep(20)),
        (b"{\"x\":[[[[[[[[[[[[[[[", syntax(20)),
        (b"[[[[[[[[[[[[[[[[]]]]]]]]]]]]]]]]", Ok(32)),
    ]
}
