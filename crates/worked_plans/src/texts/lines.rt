//! Texts cut, read as numbers, and looked up among the names N1 and N2.
use crate::texts::samples::two_names;
use std::test::Fail;
use text_lines::{find_name, numeral, split_feed, split_line, split_once, value_of_digits};

#[test]
fn cuts_at_a_byte(rt: HostRuntime) {
    for (text, front, rest) in [
        (b"a b c".as_slice(), b"a".as_slice(), b"b c".as_slice()),
        (b" b", b"", b"b"),
        (b"a ", b"a", b""),
    ] {
        assert_eq!(rt; split_once(text, b' '), Some((front, rest)), "{text:?}");
    }
    assert_eq!(rt; split_once(b"abc", b' '), None);
    assert_eq!(rt; split_once(b"", b' '), None);
}

#[test]
fn cuts_lines(rt: HostRuntime) {
    for (text, line, rest) in [
        (b"a\nb\n".as_slice(), b"a".as_slice(), b"b\n".as_slice()),
        (b"\n\n", b"", b"\n"),
        (b"a\r\nb", b"a\r", b"b"),
        (b"a", b"a", b""),
        (b"a\n", b"a", b""),
    ] {
        assert_eq!(rt; split_line(text), (line, rest), "{text:?}");
    }
    assert_eq!(rt;
        split_feed(b"a\nb"),
        Some((b"a".as_slice(), b"b".as_slice()))
    );
    assert_eq!(rt; split_feed(b"a"), None);
}

#[test]
fn reads_digits(rt: HostRuntime) {
    for (text, most, value) in [
        (b"0".as_slice(), 9, Some(0)),
        (b"007", 9, Some(7)),
        (b"999999999", 9, Some(999_999_999)),
        (b"0000000001", 9, None),
        (b"", 9, None),
        (b"+1", 9, None),
        (b"1 ", 9, None),
        (b"9999999999999999999", 19, Some(9_999_999_999_999_999_999)),
    ] {
        assert_eq!(rt; value_of_digits(text, most), value, "{text:?}");
    }
}

#[test]
fn reads_numerals(rt: HostRuntime) {
    for (text, most, value) in [
        (b"0".as_slice(), 1, Some(0)),
        (b"10", 2, Some(10)),
        (b"10", 1, None),
        (b"00", 9, None),
        (b"01", 9, None),
        (b"", 9, None),
        (b"-1", 9, None),
        (b"9999999999999999999", 19, Some(9_999_999_999_999_999_999)),
        (b"99999999999999999999", 19, None),
    ] {
        assert_eq!(rt; numeral(text, most), value, "{text:?}");
    }
}

#[test]
fn finds_names(rt: HostRuntime) -> Result<(), Fail> {
    let inst = two_names(rt.alloc())?;
    assert_eq!(rt; find_name(&inst, b"N1"), Some(0));
    assert_eq!(rt; find_name(&inst, b"N2"), Some(1));
    assert_eq!(rt; find_name(&inst, b"N"), None);
    assert_eq!(rt; find_name(&inst, b"N1\xff"), None);
    Ok(())
}
