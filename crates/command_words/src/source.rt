//! The instance of a command, and the slack at the end of its words.
ghost use Rattle.std.specs.Prelude.{◌≡◌, ◌≤◌, map, string_bytes, IfSome, IfNone, Some, None};
ghost use Rattle.command_frame.specs.Sources.{source_view};
ghost use Rattle.command_words.specs.Ends.{end_slack, source_of};

use crate::numbers::slack_of;
use command_frame::Source;

/// The instance that a word names, widened by the slack of the words behind all others.
#[tactic(auto, unfolding(crate::specs::Ends::source_of))]
pub fn source_of<'a>(instance: &'a str, end: &[String]) -> Option<Source<'a>>
    ensures found { IfSome result
        (λ source. source_of instance.now (map string_bytes end.now) ≡ Some (source_view source)) }
    ensures none { IfNone result (source_of instance.now (map string_bytes end.now) ≡ None) }
    ensures named { IfSome result (λ source. source.instance.now ≡ instance.now) }
    ensures small { IfSome result (λ source. source.slack ≤ 1_000_000_000) }
{
    let slack = end_slack(end)?;
    if instance.is_empty() {
        return None;
    }
    Some(Source { instance, slack })
}

/// The slack of the words behind all others: of one word `slack=D`, or 0 where there is none.
fn end_slack(end: &[String]) -> Option<u32>
    ensures value { result ≡ end_slack (map string_bytes end.now) }
    ensures small { IfSome result (λ count. count ≤ 1_000_000_000) }
{
    match end {
        [] => Some(0),
        [slack] => slack_of(slack.as_str()),
        _ => None,
    }
}
