// The listing of a class 2 plan: the line of the shown cycle.
ghost use Rattle.std.specs.Prelude.{◌++◌, ◌≤◌, length};
ghost use Rattle.text.specs.Name.{name_text};
ghost use Rattle.text.specs.Words.{tab};
ghost use Rattle.text.specs.Written.{Wrote};
ghost use Rattle.answers.specs.Answers.{Listed};
ghost use Rattle.answers.specs.unlisted.Unlisted.{listed_of};
ghost use Rattle.plan_listing.specs.PlanText.{names_text, cycle_line, class_two, message_numbers, HaveRows};
ghost use Rattle.plan_listing.specs.Lengths.{TextLength};

use answers::unlisted::NoRoom;
use rules::Message;
use tables::MessageRow;
use text::Name;

// How many bytes the listing has beside the names: the head, `cycle` and the end of the line.
const CYCLE_FIXED: usize = crate::CLASS_HEAD
    + text::words::CYCLE.len()
    + text::words::NEWLINE.len();

// How many bytes a name has, with the tab before it: at most 25.
fn tabbed_length(name: Name) -> usize
    ensures { TextLength (tab ++ name_text name) 25 result }
{
    text::words::TAB.len() + text::names::name_length(name)
}

// A tab and a name.
fn put_name(out: &mut [u8], name: Name) -> usize
    requires { length (tab ++ name_text name) ≤ length out.old }
    ensures { Wrote (tab ++ name_text name) out.old out.new result }
{
    let a = text::put(out, text::words::TAB);
    text::writers::more_name(out, a, name)
}

// The messages of a shown cycle, and the rows that name them.
#[derive(Clone, Copy)]
struct NamedCycle<'a> {
    rows: &'a [MessageRow],
    cycle: &'a [Message],
    ghost have_rows: { HaveRows rows.now cycle.now },
}

impl NamedCycle<'_> {
    // How many bytes the names have, each behind a tab.
    fn names_length(&self) -> usize
        ensures { TextLength (names_text self.now.rows.now (message_numbers self.now.cycle.now)) 1600 result }
    {
        let mut total = 0;
        for message in self.cycle {
            total += tabbed_length(self.rows[message.index()].name);
        }
        total
    }

    // The names, each behind a tab.
    fn put_names(&self, out: &mut [u8]) -> usize
        requires { length (names_text self.now.rows.now (message_numbers self.now.cycle.now)) ≤ length out.old }
        ensures { Wrote (names_text self.now.rows.now (message_numbers self.now.cycle.now)) out.old out.new result }
    {
        let mut at = 0;
        for m in self.cycle {
            at += put_name(&mut out[at..], self.rows[m.index()].name);
        }
        at
    }

    // The line of the cycle.
    fn put_line(&self, out: &mut [u8]) -> usize
        requires { length (cycle_line self.now.rows.now (message_numbers self.now.cycle.now)) ≤ length out.old }
        ensures { Wrote (cycle_line self.now.rows.now (message_numbers self.now.cycle.now)) out.old out.new result }
    {
        let a = text::put(out, text::words::CYCLE);
        let b = a + self.put_names(&mut out[a..]);
        text::writers::more(out, b, text::words::NEWLINE)
    }
}

// Class 2: the listing of a shown cycle, if there is room for it.
pub fn cycle_listing(
    messages: &[MessageRow],
    cycle: &[Message],
    out: &mut [u8],
) -> Result<usize, NoRoom>
    requires { HaveRows messages.now cycle.now }
    ensures { Listed (class_two messages.now (message_numbers cycle.now)) out.old out.new (listed_of result) }
{
    let shown = NamedCycle {
        rows: messages,
        cycle,
    };
    let needed = CYCLE_FIXED + shown.names_length();
    if out.len() < needed {
        return Err(NoRoom { needed });
    }
    let a = crate::put_head(out, 2);
    let end = a + shown.put_line(&mut out[a..]);
    Ok(end)
}
