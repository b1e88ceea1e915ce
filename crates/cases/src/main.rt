// Texts for the two readers, from standard input; a line is printed for each item.
//
// The files stdin and stdout beside src/ are made by the second program, host/cases.rs.
//
// An item is a line, and after it the bytes of its texts, with nothing between them:
//   protocol N     N bytes are read as a protocol text
//   judge N M      N bytes are read as a protocol text, and M more as a mapping text of its messages
// N and M are decimal numbers of at most 65536, and one blank stands before each. The program ends at the end of the
// input, and at a line that is not of this form. Where the input ends within a text, the text is what there is of it.
//
// What is printed for a protocol text:
//   refused NUMBER 0 LINE FIELD
//   accepted MESSAGES EVENTS STATES CELLS causes ROW .. stalls ROW ..
// The counts are decimal. There is a row for each message: the messages that it causes, or stalls, as a number in
// hexadecimal whose bit j says that it causes, or stalls, message j.
// Where the protocol of a judge item is accepted, the same line goes on with the mapping's answer:
//   refused NUMBER 1 LINE FIELD
//   networks NETWORK ..
// Everything in a line is parted by one blank.
#![tactic(auto)]

ghost use Rattle.std.specs.Prelude.{◌≤◌};
ghost use Rattle.tables.specs.Cells.{TablesOk};
ghost use Rattle.cases.specs.Printable.{Printable};

use answers::unlisted::Paper;
use papers::refused::Refused;
use rules::Network;
use std::io;
use std::io::Read;
use tables::Tables;

// The most bytes of a text, which is also the length of the buffer.
const MOST: usize = 65536;

// How many bytes a text has, as its item says.
#[derive(Clone, Copy)]
struct TextLength {
    bytes: usize,
    ghost fits: { bytes ≤ 65536 },
}

// What the line of an item says.
#[derive(Clone, Copy)]
enum Item {
    Protocol(TextLength),
    Judge {
        protocol: TextLength,
        mapping: TextLength,
    },
}

// ---- the line of an item

// The next byte of the input; none where it has ended.
fn next_byte(input: &mut impl Read) -> Option<u8> {
    let mut one = [0u8; 1];
    let got = files::read_full(input, &mut one);
    one[..got].first().copied()
}

// Whether the input goes on with these bytes. They are read as far as they agree, and one more.
fn goes_on_with(input: &mut impl Read, word: &[u8]) -> bool {
    for byte in word {
        if next_byte(input) != Some(*byte) {
            return false;
        }
    }
    true
}

// A text's length, in at most five digits, and the byte that ends it.
fn text_length(input: &mut impl Read, end: u8) -> Option<TextLength> {
    let mut bytes = 0;
    for _ in 0..6 {
        let byte = next_byte(input)?;
        if byte == end {
            return Some(TextLength { bytes });
        }
        bytes = bytes * 10 + char::from(byte).to_digit(10)? as usize;
        if bytes > MOST {
            return None;
        }
    }
    None
}

// The line of the next item; none at the end of the input, and at a line that is not of this form.
fn next_item(input: &mut impl Read) -> Option<Item> {
    match next_byte(input)? {
        b'p' if goes_on_with(input, b"rotocol ") => {
            Some(Item::Protocol(text_length(input, b'\n')?))
        }
        b'j' if goes_on_with(input, b"udge ") => {
            let protocol = text_length(input, b' ')?;
            let mapping = text_length(input, b'\n')?;
            Some(Item::Judge { protocol, mapping })
        }
        _ => None,
    }
}

// ---- the texts of an item

// The next bytes of the input, in the room lent for them: so many, or as many as there still are.
fn next_text<'a>(input: &mut impl Read, length: TextLength, room: &'a mut [u8; MOST]) -> &'a [u8] {
    let got = files::read_full(input, &mut room[..length.bytes]);
    &room[..got]
}

// What the protocol reader answers of the next text.
fn protocol_of(input: &mut impl Read, length: TextLength) -> Result<Tables, Refused>
    ensures { Printable result }
{
    let mut room = [0u8; MOST];
    protocol::read_protocol(next_text(input, length, &mut room))
}

// What the mapping reader answers of the next text, with the messages of these tables.
fn mapping_of(
    input: &mut impl Read,
    length: TextLength,
    t: &Tables,
) -> Result<[Network; tables::MESSAGES], Refused>
    requires { TablesOk t.now }
{
    let mut room = [0u8; MOST];
    mapping::read_mapping(next_text(input, length, &mut room), t.messages())
}

// Passes over the next text.
fn pass_over(input: &mut impl Read, length: TextLength) {
    let mut room = [0u8; MOST];
    let _ = next_text(input, length, &mut room);
}

// ---- the output. Functions and no Display: they print of one value what this program asks, and no other place prints it.

// The rows of the messages, in hexadecimal.
fn print_rows(rt: &impl Print, rows: &[u64]) -> io::Result<()> {
    for row in rows {
        print!(rt; " {row:x}")?;
    }
    Ok(())
}

// The networks of the messages.
fn print_networks(rt: &impl Print, networks: &[Network]) -> io::Result<()> {
    for network in networks {
        print!(rt; " {}", network.0)?;
    }
    Ok(())
}

fn print_refusal(rt: &impl Print, why: Refused, paper: Paper) -> io::Result<()> {
    let r = why.refusal();
    print!(rt;
        "refused {} {} {} {}",
        r.number,
        paper.number(),
        r.line,
        r.field
    )
}

fn print_tables(rt: &impl Print, t: &Tables) -> io::Result<()>
    requires { TablesOk t.now }
{
    print!(rt;
        "accepted {} {} {} {}",
        t.message_count, t.event_count, t.state_count, t.cell_count
    )?;
    let causes = table_rows::causes::causes_rows(t);
    let stalls = table_rows::stalls::stalls_rows(t);
    print!(rt; " causes")?;
    print_rows(rt, &causes[..t.message_count])?;
    print!(rt; " stalls")?;
    print_rows(rt, &stalls[..t.message_count])
}

// ---- the answers

// The answer of a protocol item.
fn protocol_item(rt: &impl Print, input: &mut impl Read, protocol: TextLength) -> io::Result<()> {
    match protocol_of(input, protocol) {
        Ok(t) => print_tables(rt, &t),
        Err(why) => print_refusal(rt, why, Paper::Protocol),
    }
}

// The mapping's answer, behind that of its protocol.
fn mapping_item(
    rt: &impl Print,
    input: &mut impl Read,
    mapping: TextLength,
    t: &Tables,
) -> io::Result<()>
    requires { TablesOk t.now }
{
    match mapping_of(input, mapping, t) {
        Ok(networks) => {
            print!(rt; " networks")?;
            print_networks(rt, &networks[..t.message_count])
        }
        Err(why) => {
            print!(rt; " ")?;
            print_refusal(rt, why, Paper::Mapping)
        }
    }
}

// The answer of a judge item.
fn judge_item(
    rt: &impl Print,
    input: &mut impl Read,
    protocol: TextLength,
    mapping: TextLength,
) -> io::Result<()> {
    match protocol_of(input, protocol) {
        Ok(t) => {
            print_tables(rt, &t)?;
            mapping_item(rt, input, mapping, &t)
        }
        // the refusal first: who sends the items may wait for it before the mapping comes
        Err(why) => {
            print_refusal(rt, why, Paper::Protocol)?;
            pass_over(input, mapping);
            Ok(())
        }
    }
}

// Reads the texts of an item, and prints its line.
fn answer(rt: &impl Print, input: &mut impl Read, item: Item) -> io::Result<()> {
    match item {
        Item::Protocol(protocol) => protocol_item(rt, input, protocol)?,
        Item::Judge { protocol, mapping } => judge_item(rt, input, protocol, mapping)?,
    }
    println!(rt;)
}

// A proved loop has to end, and nothing says that the input does. So the items are counted, up to a number that no run
// comes to.
fn main(rt: HostRuntime) -> io::Result<()> {
    let mut input = rt.stdin();
    for _ in 0..u64::MAX {
        let Some(item) = next_item(&mut input) else {
            break;
        };
        answer(&rt, &mut input, item)?;
    }
    Ok(())
}
