//! Events of the machine, with their texts and numbers.

ghost use Rattle.std.specs.Prelude.{◌≡◌};
ghost use Rattle.json_machine.specs.Machines.{event_of};
ghost use Rattle.json_grammar.specs.Events.{event_view};
ghost use Rattle.json_grammar.specs.laws.Sound.{IsSoundEvent};

use json_grammar::{Event, NumText, Text};
use json_machine::RawEvent;

/// The event that the machine told.
pub(crate) fn sound_event(raw: RawEvent) -> Event
    requires { IsSoundEvent (event_of raw) }
    ensures { event_view result ≡ event_of raw }
{
    match raw {
        RawEvent::Begin(at, object) => Event::Begin { at, object },
        RawEvent::Finish(at) => Event::Finish { at },
        RawEvent::Key(at, end, text) => Event::Key {
            at,
            end,
            text: Text::of_bytes(text),
        },
        RawEvent::Null(at) => Event::Null { at },
        RawEvent::Bool(at, value) => Event::Bool { at, value },
        RawEvent::Num(at, bytes) => Event::Num {
            at,
            num: NumText::of_token(bytes),
        },
        RawEvent::Text(at, end, text) => Event::Text {
            at,
            end,
            text: Text::of_bytes(text),
        },
    }
}
