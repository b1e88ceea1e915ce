// One line of a mapping: its shape, and what it gives.
ghost use Rattle.std.specs.Prelude.{◌≡◌, true};
ghost use Rattle.text.specs.Parts.{split};
ghost use Rattle.mapping.specs.lines.Line.{map_shaped, map_shape, MapTold};

use crate::Header;
use papers::records::Record;
use papers::refused::{Field, Reason, Refused};
use rules::Network;
use tables::MessageRow;

// That the line has three fields, the first of which is the word; else the field that is wrong, and 0 where only the number of fields is. The word is
// asked for before the number, because a wrong word is told even where the number is wrong too.
pub(crate) fn is_map(line: &Record) -> Result<(), Field>
    ensures { result ≡ map_shape (split 9 line.now.bytes.now) }
{
    if !line.is(text::words::MAP) {
        return Err(Field(1));
    }
    if line.count() != 3 {
        return Err(Field(0));
    }
    Ok(())
}

// What the nth line, which is shaped, gives where it is the turn of this message.
pub(crate) fn map_line(
    line: &Record,
    nth: usize,
    message: &MessageRow,
    header: Header,
) -> Result<Network, Refused>
    requires { map_shaped (split 9 line.now.bytes.now) ≡ true }
    ensures { MapTold header.most nth message.now (split 9 line.now.bytes.now) result }
{
    if !text::names::named(message.name, line.field(1)) {
        return Err(Refused::at(Reason::Unmatched, nth, Field(2)));
    }
    let Some(network) = crate::networks::network_of(line.field(2), header) else {
        return Err(Refused::at(Reason::Network, nth, Field(3)));
    };
    Ok(network)
}
