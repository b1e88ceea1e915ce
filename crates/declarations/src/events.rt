// The lines that declare events: how each is refused, and what it stands for.
ghost use Rattle.std.specs.Prelude.{◌≡◌, true, ◌≤◌, length};
ghost use Rattle.text.specs.Parts.{split};
ghost use Rattle.text.specs.Words.{event_word};
ghost use Rattle.text.specs.Line.{says};
ghost use Rattle.declarations.specs.events.Told.{EventTold};

use papers::records::Record;
use papers::refused::{Field, Reason, Refused};
use tables::{EventRow, MessageRow};

// The field of the name, counted from 1.
const NAME_FIELD: Field = Field(2);

// An event's line, while messages and events were read, which share one name space.
pub fn event_line(
    line: &Record,
    nth: usize,
    messages: &[MessageRow],
    events: &[EventRow],
) -> Result<EventRow, Refused>
    requires { (says (split 9 line.now.bytes.now) 0 event_word ≡ true) × (length messages.now ≤ 64) × (length events.now ≤ 8) }
    ensures { EventTold nth line.now.bytes.now messages.now events.now result }
{
    let shape = lines::shapes::event_shape(line);
    shape.map_err(|field| Refused::at(Reason::Shape, nth, field))?;
    let part = line.field(1);
    let declared = tables::names::message_named(messages, part).is_some()
        || tables::names::event_named(events, part).is_some();
    let full = tables::EVENTS <= events.len();
    let name = crate::named_fields::declared_name(part, NAME_FIELD, nth, declared, full)?;
    Ok(EventRow { name })
}
