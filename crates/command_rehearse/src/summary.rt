//! The summary of a rehearsal, and its text.
ghost use Rattle.std.specs.Prelude.{◌≡◌, ◌++◌, IfOk, OnOk};
ghost use Rattle.command_rehearse.specs.Rehearsing.{key_line, opening_lines, descent_lines, bound_lines};
ghost use Rattle.command_rehearse.specs.Rehearsing.{summary_text};

use certificate_text::Bound;
use command_frame::{Text, push_bound_or_none, push_numbered, push_rounded};
use instance_model::Key;
use std::alloc::{AllocError, Global};

/// What is said of a rehearsal.
#[derive(Clone, Copy)]
pub(crate) struct Summary {
    pub interventions: u64,
    /// The key of the opening plan.
    pub opening: Key,
    /// The key at which the descent ended.
    pub descent: Key,
    /// How many changes the descent made.
    pub moves: u64,
    /// The key after these were undone.
    pub undone: Key,
    /// The bound of the certificate.
    pub bound: Bound,
    /// How many splits it has.
    pub splits: u64,
    /// How many numbers of the instance's text were changed by rounding.
    pub rounded: u64,
}

/// The text of a summary.
pub(crate) fn summary_text(alloc: Global, summary: Summary) -> Result<Text, AllocError>
    ensures { IfOk result (λ text. text ≡ summary_text summary) }
{
    let mut text = Text::new(alloc);
    push_opening(&mut text, summary)?;
    push_descent(&mut text, summary)?;
    push_bounding(&mut text, summary)?;
    Ok(text)
}

/// Adds the lines of the instance and its opening plan.
fn push_opening(text: &mut Text, summary: Summary) -> Result<(), AllocError>
    ensures { OnOk result (text.new ≡ text.old ++ opening_lines summary) }
{
    push_numbered(text, "interventions ", summary.interventions)?;
    push_key(text, "opening", summary.opening)?;
    Ok(())
}

/// Adds those of the descent, and of the way back.
fn push_descent(text: &mut Text, summary: Summary) -> Result<(), AllocError>
    ensures { OnOk result (text.new ≡ text.old ++ descent_lines summary) }
{
    push_key(text, "descent", summary.descent)?;
    push_numbered(text, "moves ", summary.moves)?;
    push_key(text, "undone", summary.undone)
}

/// Adds those of the certificate, and of rounding.
fn push_bounding(text: &mut Text, summary: Summary) -> Result<(), AllocError>
    ensures { OnOk result (text.new ≡ text.old ++ bound_lines summary) }
{
    push_bound_or_none(text, summary.bound)?;
    push_numbered(text, "splits ", summary.splits)?;
    push_rounded(text, summary.rounded)
}

/// Adds a word and a key.
fn push_key(text: &mut Text, word: &str, key: Key) -> Result<(), AllocError>
    ensures { OnOk result (text.new ≡ text.old ++ key_line word.now key) }
{
    text.push(word)?;
    text.push(" ")?;
    text.push_signed(key.violation)?;
    text.push(" ")?;
    text.push_signed(key.score)?;
    text.push("\n")
}
