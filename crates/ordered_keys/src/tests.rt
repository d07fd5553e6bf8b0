//! Keys that come again, and where they are found.

use crate::{KeySet, NumberSet, TextSet};
use std::test::Fail;

#[test]
fn texts_are_found_where_they_were_added(rt: HostRuntime) -> Result<(), Fail> {
    let mut texts = TextSet::new(rt.alloc());
    for (text, new) in [
        ("south", true),
        ("north", true),
        ("south", false),
        ("", true),
    ] {
        assert_eq!(rt; texts.add(String::from_str(rt.alloc(), text)?)?, new);
    }
    assert_eq!(rt; texts.len(), 3);
    assert_eq!(rt; texts.as_slice()[1].as_str(), "north");
    assert_eq!(rt; texts.index_of("north"), Some(1));
    assert_eq!(rt; texts.index_of(""), Some(2));
    assert_eq!(rt; texts.index_of("nort"), None);
    Ok(())
}

#[test]
fn texts_of_a_list_stand_where_they_come_first(rt: HostRuntime) -> Result<(), Fail> {
    let mut list = Vec::new(rt.alloc());
    for text in ["south", "north", "south", ""] {
        list.push(String::from_str(rt.alloc(), text)?)?;
    }
    let texts = TextSet::from_vec(rt.alloc(), list)?;
    assert_eq!(rt; texts.len(), 3);
    assert_eq!(rt; texts.as_slice()[2].as_str(), "");
    assert_eq!(rt; texts.index_of("north"), Some(1));
    assert_eq!(rt; texts.index_of("nort"), None);
    Ok(())
}

#[test]
fn keys_come_once(rt: HostRuntime) -> Result<(), Fail> {
    let mut keys = KeySet::new(rt.alloc());
    for (key, new) in [
        ("", true),
        ("max", true),
        ("", false),
        // 15 bytes, these and a 16th, another 16th, another 15th
        ("Scenarios_numbe", true),
        ("Scenarios_number", true),
        ("Scenarios_numbes", true),
        ("Scenarios_numbf", true),
        ("Scenarios_numbe", false),
        ("Scenarios_number", false),
        ("\0", true),
        ("\0\0", true),
        ("max\0", true),
        ("max", false),
        ("\0max", true),
        ("max\0", false),
        ("ma\u{e4}", true),
        ("ma\u{e5}", true),
    ] {
        assert_eq!(rt; keys.add(rt.alloc(), key)?, new);
        assert_eq!(rt; keys.contains(key), true);
    }
    assert_eq!(rt; keys.len(), 12);
    for key in [
        "min",
        "Scenarios_numb",
        "Scenarios_numbet",
        "Scenarios_numbers",
        "\0\0\0",
    ] {
        assert_eq!(rt; keys.contains(key), false);
    }
    Ok(())
}

#[test]
fn numbers_come_once(rt: HostRuntime) -> Result<(), Fail> {
    let mut numbers = NumberSet::new(rt.alloc());
    for (number, new) in [(7, true), (3, true), (7, false), (0, true), (3, false)] {
        assert_eq!(rt; numbers.add(number)?, new);
    }
    assert_eq!(rt; numbers.len(), 3);
    Ok(())
}
