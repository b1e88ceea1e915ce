// The protocol reader: a text to tables, or a refusal.
#![tactic(auto)]

pub mod sections;
pub mod whole;

ghost use Rattle.std.specs.Prelude.{◌≡◌};
ghost use Rattle.protocol.specs.whole.Whole.{reading_of};
ghost use Rattle.protocol.specs.Reading.{read_protocol_lem};

use crate::sections::{LineStart, Section};
use papers::refused::Refused;
use tables::Tables;

// Reads a protocol text. Sections follow each other; each ends at the first line that is not of it.
pub fn read_protocol(text: &[u8]) -> Result<Tables, Refused>
    ensures { reading_of result ≡ read_protocol_lem text.now }
{
    papers::opening(text::words::PROTOCOL_HEADER, text)?;
    let mut t = tables::cleared();
    let second = LineStart {
        at: text::find(text, 10, 0, text.len()) + 1,
        line: 2,
    };
    let events = crate::sections::read_section(Section::Message, text, second, &mut t)?;
    let states = crate::sections::read_section(Section::Event, text, events, &mut t)?;
    let cells = crate::sections::read_section(Section::State, text, states, &mut t)?;
    crate::sections::read_section(Section::Cell, text, cells, &mut t)?;
    crate::whole::finished(&t)?;
    Ok(t)
}
