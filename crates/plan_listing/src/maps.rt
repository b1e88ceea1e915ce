// The listing of a class 3 plan: the least count, and a line for each message.
ghost use Rattle.std.specs.Prelude.{◌≤◌, length};
ghost use Rattle.text.specs.Name.{name_text};
ghost use Rattle.text.specs.Written.{decimal, Wrote};
ghost use Rattle.mapping.specs.Text.{map_texts};
ghost use Rattle.answers.specs.Answers.{Listed};
ghost use Rattle.answers.specs.unlisted.Unlisted.{listed_of};
ghost use Rattle.plan_listing.specs.PlanText.{map_text, class_three, network_numbers};
ghost use Rattle.plan_listing.specs.Lengths.{TextLength};

use answers::unlisted::NoRoom;
use rules::Network;
use tables::MessageRow;
use text::Name;

// How many bytes stand before the messages' lines, but for the digits of the least count: the head, and `networks`, a tab and the
// end of the line.
const BEFORE_MAPS: usize = crate::CLASS_HEAD
    + text::words::NETWORKS.len()
    + text::words::TAB.len()
    + text::words::NEWLINE.len();

// How many bytes a message's line has beside its name and its network: `map`, two tabs and the end of the line.
const MAP_FIXED: usize = text::words::MAP.len()
    + text::words::TAB.len()
    + text::words::TAB.len()
    + text::words::NEWLINE.len();

// How many digits a number has.
fn digits(n: u8) -> usize
    ensures { TextLength (decimal n) 3 result }
{
    match n {
        0..=9 => 1,
        10..=99 => 2,
        _ => 3,
    }
}

// How many bytes the line of a message and its network has: at most 33, with a name of 24 bytes and three digits.
fn map_length(name: Name, network: Network) -> usize
    ensures { TextLength (map_text (name_text name) network.0) 33 result }
{
    let n = network.0;
    MAP_FIXED + text::names::name_length(name) + digits(n)
}

// The line of a message and its network.
fn put_map(out: &mut [u8], name: Name, network: Network) -> usize
    requires { length (map_text (name_text name) network.0) ≤ length out.old }
    ensures { Wrote (map_text (name_text name) network.0) out.old out.new result }
{
    let n = network.0;
    let a = text::put(out, text::words::MAP);
    let b = text::writers::more(out, a, text::words::TAB);
    let c = text::writers::more_name(out, b, name);
    let d = text::writers::more(out, c, text::words::TAB);
    let e = text::writers::more_number(out, d, n as u32);
    text::writers::more(out, e, text::words::NEWLINE)
}

// The rows of at most 64 messages, and the network of each.
#[derive(Clone, Copy)]
struct MappedRows<'a> {
    messages: &'a [MessageRow],
    networks: &'a [Network],
    ghost few: { length messages.now ≤ 64 },
}

impl MappedRows<'_> {
    // How many bytes the lines of all messages have.
    fn maps_length(&self) -> usize
        ensures { TextLength (map_texts self.now.messages.now (network_numbers self.now.networks.now)) 2112 result }
    {
        let mut total = 0;
        for (row, network) in self.messages.iter().zip(self.networks) {
            total += map_length(row.name, *network);
        }
        total
    }

    // A line for each message.
    fn put_maps(&self, out: &mut [u8]) -> usize
        requires { length (map_texts self.now.messages.now (network_numbers self.now.networks.now)) ≤ length out.old }
        ensures { Wrote (map_texts self.now.messages.now (network_numbers self.now.networks.now)) out.old out.new result }
    {
        let mut at = 0;
        for (row, network) in self.messages.iter().zip(self.networks) {
            at += put_map(&mut out[at..], row.name, *network);
        }
        at
    }
}

// Class 3: the listing of a plan, if there is room for it.
pub fn map_listing(
    messages: &[MessageRow],
    networks: &[Network],
    count: usize,
    out: &mut [u8],
) -> Result<usize, NoRoom>
    requires { (length messages.now ≤ 64) × (count ≤ 64) }
    ensures { Listed (class_three messages.now (network_numbers networks.now) count) out.old out.new (listed_of result) }
{
    let mapped = MappedRows { messages, networks };
    let needed = BEFORE_MAPS + digits(count as u8) + mapped.maps_length();
    if out.len() < needed {
        return Err(NoRoom { needed });
    }
    let a = crate::put_head(out, 3);
    let b = a + crate::put_number_line(&mut out[a..], text::words::NETWORKS, count as u32);
    let end = b + mapped.put_maps(&mut out[b..]);
    Ok(end)
}
