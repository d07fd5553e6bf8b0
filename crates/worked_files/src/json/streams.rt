//! Texts in pieces. What is told is written as words: a sign for the kind, the offsets, and the text.

ghost use Rattle.std.specs.Prelude.{◌<◌};
ghost use Rattle.json_events.specs.Pulls.{IsUnfinished};

use crate::json::samples::samples;
use json_events::{Pull, Pulled};
use json_grammar::{Event, Node, NumText, TextFault, Tree};
use json_tree::read_tree;
use std::alloc::{AllocError, Global};
use std::fmt::Write;

fn add(words: &mut String, kind: char, at: u64, end: u64, text: &str) -> Result<(), AllocError> {
    write!(words, "{kind}{at}-{end}{text} ")
}

fn add_number(words: &mut String, at: u64, num: &NumText) -> Result<(), AllocError> {
    let token = str::from_utf8(num.as_bytes()).unwrap_or("?");
    add(words, '0', at, at.wrapping_add(token.len() as u64), token)
}

fn add_event(words: &mut String, event: &Event) -> Result<(), AllocError> {
    match event {
        Event::Begin { at, object: false } => add(words, '[', *at, at.wrapping_add(1), ""),
        Event::Begin { at, object: true } => add(words, '{', *at, at.wrapping_add(1), ""),
        Event::Finish { at } => add(words, ']', *at, at.wrapping_add(1), ""),
        Event::Key { at, end, text } => add(words, 'k', *at, *end, text.as_str()),
        Event::Null { at } => add(words, 'n', *at, at.wrapping_add(4), ""),
        Event::Bool { at, value: true } => add(words, 'y', *at, at.wrapping_add(4), ""),
        Event::Bool { at, value: false } => add(words, 'n', *at, at.wrapping_add(5), ""),
        Event::Num { at, num } => add_number(words, *at, num),
        Event::Text { at, end, text } => add(words, 't', *at, *end, text.as_str()),
    }
}

fn add_tree(words: &mut String, tree: &Tree) -> Result<(), AllocError> {
    let (at, end) = (tree.at, tree.end);
    match &tree.node {
        Node::Null => add(words, 'n', at, end, ""),
        Node::Bool(true) => add(words, 'y', at, end, ""),
        Node::Bool(false) => add(words, 'n', at, end, ""),
        Node::Num(num) => add_number(words, at, num),
        Node::Text(text) => add(words, 't', at, end, text.as_str()),
        Node::List(items) => {
            add(words, '[', at, at.wrapping_add(1), "")?;
            for item in items {
                add_tree(words, item)?;
            }
            add(words, ']', end.wrapping_sub(1), end, "")
        }
        Node::Object(members) => {
            add(words, '{', at, at.wrapping_add(1), "")?;
            for member in members {
                add(words, 'k', member.at, member.end, member.key.as_str())?;
                add_tree(words, &member.value)?;
            }
            add(words, ']', end.wrapping_sub(1), end, "")
        }
    }
}

/// The next event that is due, without the clauses of the call, which a proof of a loop would carry along.
fn next_of(pull: &mut Pull) -> Result<Pulled, TextFault>
    requires { IsUnfinished pull.old }
    ensures { IsUnfinished pull.new }
{
    pull.next_event()
}

/// The same for the end of a stream.
fn finish_of(pull: &mut Pull) -> Result<Pulled, TextFault> {
    pull.finish()
}

/// The same for a piece.
fn push_to(pull: &mut Pull, piece: &[u8]) -> Result<(), AllocError>
    requires { IsUnfinished pull.old }
    ensures { IsUnfinished pull.new }
{
    pull.push(piece)
}

/// Adds what is told before the end, and whether there is more to come or a fault.
fn add_due(words: &mut String, pull: &mut Pull) -> Result<bool, AllocError>
    requires { IsUnfinished pull.old }
    ensures { IsUnfinished pull.new }
{
    for _ in 0..100 {
        match next_of(pull) {
            Ok(Pulled::Event(event)) => add_event(words, &event)?,
            Ok(Pulled::More) => return Ok(true),
            _ => return Ok(false),
        }
    }
    Ok(false)
}

/// Adds what is told to the end.
fn add_rest(words: &mut String, pull: &mut Pull) -> Result<(), TextFault> {
    for _ in 0..100 {
        match finish_of(pull)? {
            Pulled::Event(event) => add_event(words, &event)?,
            Pulled::Done => return Ok(()),
            Pulled::More => return Err(TextFault::Memory),
        }
    }
    Err(TextFault::Memory)
}

/// Adds all events of a text that is pushed in pieces of a size.
fn add_pieces(words: &mut String, alloc: Global, bytes: &[u8], size: usize) -> Result<(), TextFault>
    requires { 0 < size }
{
    let mut pull = Pull::make(alloc)?;
    for piece in bytes.chunks(size) {
        push_to(&mut pull, piece)?;
        add_due(words, &mut pull)?;
    }
    add_rest(words, &mut pull)
}

/// Adds all events of a text that is read as a whole.
fn add_whole(words: &mut String, alloc: Global, bytes: &[u8]) -> Result<(), TextFault> {
    add_tree(words, &read_tree(alloc, bytes)?)?;
    Ok(())
}

/// The words of a text that is read as a whole, and its fault.
fn words_of_whole(alloc: Global, bytes: &[u8]) -> (String, Result<(), TextFault>) {
    let mut words = String::new(alloc);
    let end = add_whole(&mut words, alloc, bytes);
    (words, end)
}

/// The words of a text that is pushed in pieces of a size, and its fault.
fn words_of_pieces(alloc: Global, bytes: &[u8], size: usize) -> (String, Result<(), TextFault>)
    requires { 0 < size }
{
    let mut words = String::new(alloc);
    let end = add_pieces(&mut words, alloc, bytes, size);
    (words, end)
}

/// Whether the pieces of a size give the words of the whole, or the same fault.
fn pieces_agree(
    alloc: Global,
    bytes: &[u8],
    size: usize,
    whole: &str,
    want: Result<(), TextFault>,
) -> bool
    requires { 0 < size }
{
    let (words, end) = words_of_pieces(alloc, bytes, size);
    end == want && (end.is_err() || words.as_str() == whole)
}

/// Whether a text is read as it should be, whole and in pieces.
fn is_read_alike(alloc: Global, bytes: &[u8], want: Result<(), TextFault>) -> bool {
    let (whole, end) = words_of_whole(alloc, bytes);
    end == want
        && pieces_agree(alloc, bytes, 1, whole.as_str(), want)
        && pieces_agree(alloc, bytes, 7, whole.as_str(), want)
        && pieces_agree(alloc, bytes, 100, whole.as_str(), want)
}

#[test]
fn pieces_of_each_size_give_the_events_of_the_tree_or_the_fault(rt: HostRuntime) {
    for (bytes, want) in samples() {
        assert!(rt; is_read_alike(rt.alloc(), bytes, want.map(|_| ())));
    }
}

/// What is told of three pieces, behind each and at the end, and the fault there.
fn answers(
    alloc: Global,
    pieces: [&[u8]; 3],
) -> Result<(String, Result<(), TextFault>), AllocError> {
    let mut words = String::new(alloc);
    let mut pull = Pull::make(alloc)?;
    for piece in pieces {
        push_to(&mut pull, piece)?;
        let more = add_due(&mut words, &mut pull)?;
        words.push_str(if more { ". " } else { "! " })?;
    }
    let end = add_rest(&mut words, &mut pull);
    Ok((words, end))
}

/// Whether the answers to three pieces are these words and this end.
fn is_told(alloc: Global, pieces: [&[u8]; 3], want: &str, fault: Result<(), TextFault>) -> bool {
    match answers(alloc, pieces) {
        Ok((words, end)) => words.as_str() == want && end == fault,
        Err(_) => false,
    }
}

#[test]
fn events_are_told_as_soon_as_they_are_due(rt: HostRuntime) {
    let syntax = |at: u64| Err(TextFault::Syntax { at });
    let table: [([&[u8]; 3], &str, Result<(), TextFault>); 6] = [
        ([b"\"", b"a", b"b"], ". . . ", syntax(3)),
        ([b"12", b"", b""], ". . . 00-212 ", Ok(())),
        ([b"[12", b"3", b"] "], "[0-1 . . 01-4123 ]4-5 . ", Ok(())),
        (
            [b"[1", b"01", b",2]"],
            "[0-1 . . 01-4101 05-62 ]6-7 . ",
            Ok(()),
        ),
        ([b"[0", b"1", b",2]"], "[0-1 . ! ! ", syntax(2)),
        (
            [b"{\"k\\", b"n\":\"\\u00", b"e9\"}"],
            "{0-1 . k1-6k\n . t7-15\u{e9} ]15-16 . ",
            Ok(()),
        ),
    ];
    for (pieces, want, fault) in table {
        assert!(rt; is_told(rt.alloc(), pieces, want, fault));
    }
}

/// The place and the count that `next_counted` tells.
fn counted_of(pull: &mut Pull) -> Option<(u64, i128)>
    requires { IsUnfinished pull.old }
    ensures { IsUnfinished pull.new }
{
    pull.next_counted()
        .map(|number| (number.at, number.count.count()))
}

/// What `next_counted` tells behind the opening bracket of a list, and all that is told behind it.
fn counted_and_rest(
    alloc: Global,
    text: &[u8],
) -> Result<(Option<(u64, i128)>, String), TextFault> {
    let mut pull = Pull::make(alloc)?;
    push_to(&mut pull, text)?;
    next_of(&mut pull)?;
    let counted = counted_of(&mut pull);
    let mut words = String::new(alloc);
    add_due(&mut words, &mut pull)?;
    Ok((counted, words))
}

/// Whether this number is told by its count, and these words behind it.
fn is_counted(alloc: Global, text: &[u8], want: Option<(u64, i128)>, rest: &str) -> bool {
    match counted_and_rest(alloc, text) {
        Ok((counted, words)) => counted == want && words.as_str() == rest,
        Err(_) => false,
    }
}

#[test]
fn numbers_are_told_by_their_counts(rt: HostRuntime) {
    let table: [(&[u8], Option<(u64, i128)>, &str); 14] = [
        (b"[1.5, 2]", Some((1, 1_500_000_000_000)), "06-72 ]7-8 "),
        (b"[ \n0.25,3]", Some((3, 250_000_000_000)), "08-93 ]9-10 "),
        (b"[0,true", Some((1, 0)), "y3-7 "),
        (
            b"[9999999.999999999999,",
            Some((1, 9_999_999_999_999_999_999)),
            "",
        ),
        (b"[1.5", None, ""),
        (b"[1.5]", Some((1, 1_500_000_000_000)), "]4-5 "),
        (b"[1.5 ]", None, "01-41.5 ]5-6 "),
        (b"[1. ", None, ""),
        (b"[-1,", None, "01-3-1 "),
        (b"[1e3,", None, "01-41e3 "),
        (b"[01,", None, ""),
        (b"[12345678,", None, "01-912345678 "),
        (b"[0.1234567890123,", None, "01-160.1234567890123 "),
        (b"[null,", None, "n1-5 "),
    ];
    for (text, want, rest) in table {
        assert!(rt; is_counted(rt.alloc(), text, want, rest));
    }
}
