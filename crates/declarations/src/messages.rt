// The lines that declare messages: how each is refused, and what it stands for.
ghost use Rattle.std.specs.Prelude.{◌≡◌, true, ◌≤◌, length};
ghost use Rattle.text.specs.Parts.{split};
ghost use Rattle.text.specs.Words.{message_word};
ghost use Rattle.text.specs.Line.{says};
ghost use Rattle.declarations.specs.messages.Told.{MessageTold};

use papers::records::Record;
use papers::refused::{Field, Reason, Refused};
use tables::MessageRow;

// The field of the name, counted from 1.
const NAME_FIELD: Field = Field(2);

// A message's line, while only messages were read.
pub fn message_line(
    line: &Record,
    nth: usize,
    messages: &[MessageRow],
) -> Result<MessageRow, Refused>
    requires { (says (split 9 line.now.bytes.now) 0 message_word ≡ true) × (length messages.now ≤ 64) }
    ensures { MessageTold nth line.now.bytes.now messages.now result }
{
    let shape = lines::shapes::message_shape(line);
    let kind = shape.map_err(|field| Refused::at(Reason::Shape, nth, field))?;
    let part = line.field(1);
    let declared = tables::names::message_named(messages, part).is_some();
    let full = tables::MESSAGES <= messages.len();
    let name = crate::named_fields::declared_name(part, NAME_FIELD, nth, declared, full)?;
    Ok(MessageRow { name, kind })
}
