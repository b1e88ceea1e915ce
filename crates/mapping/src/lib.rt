// The mapping reader.
#![tactic(auto)]

pub mod lines;
pub mod networks;

ghost use Rattle.std.specs.Prelude.{◌≡◌, [], ◌≤◌, length};
ghost use Rattle.text.specs.Parts.{lines};
ghost use Rattle.papers.specs.Lined.{Lined};
ghost use Rattle.mapping.specs.Headers.{header_of};
ghost use Rattle.mapping.specs.Reading.{mapped_of, read_maps, read_mapping_lem};

use papers::records::Record;
use papers::refused::{Reason, Refused};
use rules::Network;
use tables::MessageRow;

// A header: the first line, and how many `map` lines it allows. So many networks there are under it.
#[derive(Clone, Copy)]
pub(crate) struct Header {
    pub line: &'static [u8],
    pub most: usize,
    pub ghost limits: { (10 ≤ most) × (most ≤ 64) },
}

const FIRST: Header = Header {
    line: text::words::MAPPING_HEADER,
    most: 32,
};

const SECOND: Header = Header {
    line: text::words::MAPPING_HEADER_2,
    most: 64,
};

// The header that the text is read under: the second where the text opens with it, and else the first.
fn header_of(text: &[u8]) -> Header
    ensures line { result.line.now ≡ (header_of text.now).line }
    ensures most { result.most ≡ (header_of text.now).most }
{
    if papers::opening(SECOND.line, text).is_ok() {
        return SECOND;
    }
    FIRST
}

// The networks of the messages by the lines of a text behind its header. The line of message i is line i + 2. A line that is one too many, or that
// is missing, tells no field: no field of it is wrong.
fn map_lines(
    text: &[u8],
    messages: &[MessageRow],
    header: Header,
) -> Result<[Network; tables::MESSAGES], Refused>
    requires { Lined text.now 0 × (length messages.now ≤ 64) }
    ensures { mapped_of result ≡ read_maps header.most 2 (lines text.now) messages.now [] }
{
    let n = text.len();
    let mut networks = [Network(0); tables::MESSAGES];
    let mut at = 0;
    let mut i = 0;
    // By hand: `split_inclusive` would leave byte 10 on each line, and how many lines there were is asked for behind the loop.
    while at < n {
        let e = text::find(text, 10, at, n);
        let line = Record::of(&text[at..e]);
        let nth = i + 2;
        crate::lines::is_map(&line).map_err(|field| Refused::at(Reason::Shape, nth, field))?;
        if i == header.most {
            return Err(Refused::whole(Reason::Full, nth));
        }
        let Some(message) = messages.get(i) else {
            return Err(Refused::whole(Reason::Unmatched, nth));
        };
        networks[i] = crate::lines::map_line(&line, nth, message, header)?;
        at = e + 1;
        i += 1;
    }
    if i < messages.len() {
        return Err(Refused::whole(Reason::Unmatched, i + 2));
    }
    Ok(networks)
}

// The networks of the messages, as the text gives them under its header, or why and where it is refused. There are as many as messages may be, in
// fixed memory, and those past the last message are 0.
pub fn read_mapping(
    text: &[u8],
    messages: &[MessageRow],
) -> Result<[Network; tables::MESSAGES], Refused>
    requires { length messages.now ≤ 64 }
    ensures { mapped_of result ≡ read_mapping_lem messages.now text.now }
{
    let header = header_of(text);
    papers::opening(header.line, text)?;
    let e = text::find(text, 10, 0, text.len());
    map_lines(&text[e + 1..], messages, header)
}
