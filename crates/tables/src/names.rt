// Names in the tables: which message, event or state has one. Three look-ups by one law: each has its rows and its type of number.
ghost use Rattle.std.specs.Prelude.{◌≡◌, ◌≤◌, length};
ghost use Rattle.text.specs.Parts.{first_index};
ghost use Rattle.tables.specs.names.Names.{message_named_lem, event_named_lem, found_message, found_event, state_named_lem, found_state};

use crate::{Controller, EventRow, MessageRow, StateRow};
use rules::{Event, Message, State};

// The message with this name among the rows.
pub fn message_named(messages: &[MessageRow], part: &[u8]) -> Option<Message>
    requires { length messages.now ≤ 64 }
    ensures { result ≡ found_message (first_index (message_named_lem part.now) messages.now) (length messages.now) }
{
    let i = messages
        .iter()
        .position(|row| text::names::named(row.name, part))?;
    Some(Message(i as u8))
}

// The event with this name among the rows.
pub fn event_named(events: &[EventRow], part: &[u8]) -> Option<Event>
    requires { length events.now ≤ 8 }
    ensures { result ≡ found_event (first_index (event_named_lem part.now) events.now) (length events.now) }
{
    let i = events
        .iter()
        .position(|row| text::names::named(row.name, part))?;
    Some(Event(i as u8))
}

// ---- states, which have a name space for each controller

// Whether the row is a state of this controller and has this name.
fn state_has(row: &StateRow, controller: Controller, part: &[u8]) -> bool
    ensures { result ≡ state_named_lem controller part.now row.now }
{
    row.controller == controller && text::names::named(row.name, part)
}

// The controller's state with this name among the rows.
pub fn state_named(states: &[StateRow], controller: Controller, part: &[u8]) -> Option<State>
    requires { length states.now ≤ 64 }
    ensures { result ≡ found_state (first_index (state_named_lem controller part.now) states.now) (length states.now) }
{
    let i = states
        .iter()
        .position(|row| state_has(row, controller, part))?;
    Some(State(i as u8))
}
