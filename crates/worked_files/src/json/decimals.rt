//! What is read of number tokens.

use decimal_numbers::{fixed_of, millionths_of, whole_of};
use json_grammar::{Node, TextFault};
use json_tree::read_tree;
use std::alloc::{AllocError, Global};

/// What is read of a number token; `None` where it is too large, or the bytes are no number token.
fn counted(alloc: Global, token: &[u8]) -> Result<Option<(i128, bool)>, TextFault> {
    let Node::Num(num) = read_tree(alloc, token)?.node else {
        return Ok(None);
    };
    match fixed_of(&num) {
        Ok((fixed, differs)) => Ok(Some((fixed.count(), differs))),
        Err(_) => Ok(None),
    }
}

fn whole(alloc: Global, text: &[u8]) -> Result<Option<u32>, TextFault> {
    Ok(whole_of(&read_tree(alloc, text)?.node))
}

fn millionths(alloc: Global, token: &[u8]) -> Result<Option<u32>, TextFault> {
    match read_tree(alloc, token)?.node {
        Node::Num(num) => Ok(millionths_of(&num)),
        _ => Ok(None),
    }
}

#[test]
fn counts_are_the_nearest(rt: HostRuntime) {
    let table: [(&[u8], Option<(i128, bool)>); 18] = [
        (b"1.5", Some((1_500_000_000_000, false))),
        (b"-0.25", Some((-250_000_000_000, false))),
        // the largest one whose count fits one word
        (
            b"9999999.999999999999",
            Some((9_999_999_999_999_999_999, false)),
        ),
        (b"-2e3", Some((-2_000_000_000_000_000, false))),
        (b"0.0000000000005", Some((1, true))),
        (b"-0.0000000000005", Some((-1, true))),
        (b"0.00000000000049", Some((0, true))),
        (b"-2.5e-12", Some((-3, true))),
        (b"-0", Some((0, false))),
        (b"1e-400", Some((0, true))),
        (b"0e-400", Some((0, false))),
        (b"0e999999999999", Some((0, false))),
        (b"1e-99999999999999999999", Some((0, true))),
        (b"1e99999999999999999999", None),
        (
            b"99999999.999999999999",
            Some((99_999_999_999_999_999_999, false)),
        ),
        (b"99999999.9999999999995", None),
        (b"1E8", None),
        (b"-1E8", None),
    ];
    for (token, want) in table {
        assert_eq!(rt; counted(rt.alloc(), token), Ok(want));
    }
}

/// A 1 with 5000 zeros behind it, times 10^-4993.
fn long_token(alloc: Global) -> Result<Vec<u8>, AllocError> {
    let mut token = Vec::new(alloc);
    token.push(b'1')?;
    for _ in 0..5000 {
        token.push(b'0')?;
    }
    token.extend_from_slice(b"e-4993")?;
    Ok(token)
}

#[test]
fn digits_and_exponents_may_be_many(rt: HostRuntime) {
    let token = long_token(rt.alloc()).expect(&rt, "memory");
    let want = Some((10_000_000_000_000_000_000, false));
    assert_eq!(rt; counted(rt.alloc(), token.as_slice()), Ok(want));
}

#[test]
fn wholes_are_exact(rt: HostRuntime) {
    let table: [(&[u8], Option<u32>); 12] = [
        (b"2.0", Some(2)),
        (b"1e0", Some(1)),
        (b"-0", Some(0)),
        (b"\"2.0\"", Some(2)),
        (b"\"01\"", None),
        (b"\" 1\"", None),
        (b"1e9", None),
        (b"999999999", Some(999_999_999)),
        (b"-1", None),
        (b"1.5", None),
        (b"1e999", None),
        (b"true", None),
    ];
    for (text, want) in table {
        assert_eq!(rt; whole(rt.alloc(), text), Ok(want));
    }
}

#[test]
fn millionths_are_exact(rt: HostRuntime) {
    let table: [(&[u8], Option<u32>); 6] = [
        (b"0.95", Some(950_000)),
        (b"1", Some(1_000_000)),
        (b"0", Some(0)),
        (b"0.0000001", None),
        (b"1.000001", None),
        (b"-0.5", None),
    ];
    for (token, want) in table {
        assert_eq!(rt; millionths(rt.alloc(), token), Ok(want));
    }
}
