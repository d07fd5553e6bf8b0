//! Trees of whole texts.

use crate::json::samples::samples;
use json_grammar::{Member, Node, Text, TextFault, Tree};
use json_tree::read_tree;
use std::alloc::{AllocError, Global};
use std::test::Fail;

/// The end of the tree, or the fault.
fn end_of(alloc: Global, bytes: &[u8]) -> Result<u64, TextFault> {
    Ok(read_tree(alloc, bytes)?.end)
}

#[test]
fn texts_and_the_places_of_their_faults(rt: HostRuntime) {
    for (bytes, want) in samples() {
        assert_eq!(rt; end_of(rt.alloc(), bytes), want);
    }
}

/// The offsets of a tree, and its members.
fn object_of(alloc: Global, bytes: &[u8]) -> Result<Option<(u64, u64, Vec<Member>)>, TextFault> {
    let Tree { at, end, node } = read_tree(alloc, bytes)?;
    match node {
        Node::Object(members) => Ok(Some((at, end, members))),
        _ => Ok(None),
    }
}

fn is_key(key: Text, want: &str) -> bool {
    Text::of_string(key.into_string()).as_str() == want
}

#[test]
fn members_keep_their_places(rt: HostRuntime) {
    let object = object_of(rt.alloc(), b" { \"k\\n\" : [ \"v\", 12 ] }");
    let Ok(Some((at, end, members))) = object else {
        panic!(rt; "no object")
    };
    assert_eq!(rt; (at, end), (1, 24));
    assert_eq!(rt; members.len(), 1);
    for Member {
        at,
        end,
        key,
        value,
    } in members {
        assert_eq!(rt; (at, end, value.at, value.end), (3, 8, 11, 22));
        assert!(rt; is_key(key, "k\n"));
    }
}

/// A list of empty lists, so many.
fn list_of_lists(alloc: Global, count: usize) -> Result<Vec<u8>, AllocError> {
    let mut bytes = vec![in alloc; b'[']?;
    for k in 0..count {
        if k > 0 {
            bytes.push(b',')?;
        }
        bytes.extend_from_slice(b"[]")?;
    }
    bytes.push(b']')?;
    Ok(bytes)
}

#[test]
fn a_million_brackets_are_too_deep_or_a_wide_list(rt: HostRuntime) -> Result<(), Fail> {
    let deep = vec![in rt.alloc(); b'['; 1_000_000]?;
    let fault = Err(TextFault::TooDeep { at: 16 });
    assert_eq!(rt; end_of(rt.alloc(), deep.as_slice()), fault);
    let wide = list_of_lists(rt.alloc(), 499_999)?;
    assert_eq!(rt; end_of(rt.alloc(), wide.as_slice()), Ok(1_499_998));
    Ok(())
}
