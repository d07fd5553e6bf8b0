//! The tree of a whole text: the machine and the builder over all of its bytes.

ghost use Rattle.std.specs.Prelude.{◌≡◌, ℕ, List, ◌<◌, ◌+◌, ◌^◌, IfOk, OnOk, Err, Some, None, IsTrue, is_some};
ghost use Rattle.std.specs.Prelude.{option_map, MatchResult};
ghost use Rattle.json_tree.specs.Building.{built_of};
ghost use Rattle.json_grammar.specs.Prefix.{IsSyntaxFault, IsDepthFault, IsShallow, first_past};
ghost use Rattle.json_grammar.specs.Grammar.{IsText};
ghost use Rattle.json_grammar.specs.laws.Machine.{ending, step, State};
ghost use Rattle.json_grammar.specs.Tree as json;
ghost use Rattle.json_grammar.specs.Tree.{Event};
ghost use Rattle.json_grammar.specs.laws.Sound.{AreSound};
ghost use Rattle.json_grammar.specs.Trees.{tree_view};
ghost use Rattle.json_grammar.specs.laws.Builder.{Advances, Concludes};
ghost use Rattle.json_machine.specs.Machines.{state_of, IsSound};

use crate::builder::Builder;
use json_grammar::{TextFault, Tree};
use json_machine::{Answer, MOST_LEVELS, Machine};
use std::alloc::{AllocError, Global};

/// Hands the byte at k to the machine, and what it tells to the builder. False: it is refused.
fn advance(
    alloc: Global,
    machine: &mut Machine,
    builder: &mut Builder,
    k: u64,
    byte: u8,
) -> Result<bool, AllocError>
    requires sound { IsSound k machine.old }
    requires room { k < 2 ^ 63 }
    requires told { (t : State) (es : List Event) →
        step k (state_of machine.old).levels (state_of machine.old).mode byte ≡ Some (t, es) →
        AreSound es }
    ensures sound { OnOk result (IsSound (k + 1) machine.new) }
    ensures moves { IfOk result
        (λ taken. Advances taken k (state_of machine.old) byte (state_of machine.new)
        (built_of builder.old) (built_of builder.new)) }
{
    if machine.quiet_step(k, byte)? {
        return Ok(true);
    }
    advance_aloud(alloc, machine, builder, k, byte)
}

/// The same for a byte at which something may be told.
fn advance_aloud(
    alloc: Global,
    machine: &mut Machine,
    builder: &mut Builder,
    k: u64,
    byte: u8,
) -> Result<bool, AllocError>
    requires sound { IsSound k machine.old }
    requires room { k < 2 ^ 63 }
    requires told { (t : State) (es : List Event) →
        step k (state_of machine.old).levels (state_of machine.old).mode byte ≡ Some (t, es) →
        AreSound es }
    ensures sound { OnOk result (IsSound (k + 1) machine.new) }
    ensures moves { IfOk result
        (λ taken. Advances taken k (state_of machine.old) byte (state_of machine.new)
        (built_of builder.old) (built_of builder.new)) }
{
    match machine.step(alloc, k, byte)? {
        Answer::Refused => return Ok(false),
        Answer::Quiet => {}
        Answer::One(event) => builder.feed(alloc, event)?,
        Answer::Two(number, event) => {
            builder.feed(alloc, number)?;
            builder.feed(alloc, event)?;
        }
    }
    Ok(true)
}

/// The tree of a JSON text in UTF-8, nested at most 16 deep, with the offsets of its values and keys. Time is linear
/// in the length; no call recurses over the bytes.
///
/// # Errors
///
/// `Syntax` where the bytes are no JSON text: `at` is the length of the longest prefix that begins one, so a text that
/// ends too early has its own length. `TooDeep` at the first bracket or brace that opens a 17th level. The lesser place
/// counts; the two are never equal. `Memory` may come in place of any answer.
pub fn read_tree(alloc: Global, bytes: &[u8]) -> Result<Tree, TextFault>
    ensures tree { IfOk result (λ t. IsText bytes.now (tree_view t)) }
    ensures no_other { IfOk result (λ t. (tree : json.Tree) → IsText bytes.now tree → tree ≡ tree_view t) }
    ensures shallow { IfOk result (λ t. first_past 16 (tree_view t) ≡ None) }
    // every text nested at most 16 deep is read
    ensures only { (tree : json.Tree) → IsText bytes.now tree → first_past 16 tree ≡ None → MatchResult result
        (λ t. tree_view t ≡ tree) (λ fault. fault ≡ TextFault.Memory) }
    ensures syntax { (at : ℕ) → result ≡ Err (TextFault.Syntax at) → IsSyntaxFault bytes.now at }
    // no level is too deep before the place of the fault
    ensures first { (at : ℕ) → result ≡ Err (TextFault.Syntax at) → IsShallow bytes.now at }
    ensures too_deep { (at : ℕ) → result ≡ Err (TextFault.TooDeep at) → IsDepthFault bytes.now at }
{
    let mut machine = Machine::new(alloc);
    let mut builder = Builder::new(alloc);
    for i in 0..bytes.len() {
        let k = i as u64;
        let taken = advance(alloc, &mut machine, &mut builder, k, bytes[i])?;
        if !taken {
            return Err(TextFault::Syntax { at: k });
        }
        if machine.depth() > MOST_LEVELS {
            return Err(TextFault::TooDeep { at: k });
        }
    }
    if !machine.may_finish() {
        return Err(TextFault::Syntax {
            at: bytes.len() as u64,
        });
    }
    match conclude(alloc, &machine, builder, bytes.len() as u64)? {
        Some(tree) => Ok(tree),
        None => unreachable!(),
    }
}

/// What is told at the end, and the tree.
fn conclude(
    alloc: Global,
    machine: &Machine,
    mut builder: Builder,
    k: u64,
) -> Result<Option<Tree>, AllocError>
    requires ends { IsTrue (is_some (ending (state_of machine.now).levels (state_of machine.now).mode)) }
    requires sound { IsSound k machine.now }
    requires room { k < 2 ^ 63 }
    requires told { (es : List Event) → ending (state_of machine.now).levels (state_of machine.now).mode ≡ Some es →
        AreSound es }
    ensures { IfOk result
        (λ t. Concludes (state_of machine.now) (built_of builder) (option_map tree_view t)) }
{
    if let Some(event) = machine.last_event(alloc)? {
        builder.feed(alloc, event)?;
    }
    Ok(builder.finish())
}
