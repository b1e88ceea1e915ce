// The four sections of a protocol text: one loop over the lines of each. It ends at the first line that is not of the section.
// `Kept` is asked for in contracts: `Tables` itself stands for every value (see there).
ghost use Rattle.std.specs.Prelude.{◌≡◌, true, false};
ghost use Rattle.text.specs.Parts.{split};
ghost use Rattle.lines.specs.Line.{message, event, state, cell, says_of};
ghost use Rattle.lines.specs.Checks.{later_read};
ghost use Rattle.protocol.specs.whole.Kept.{Kept};
ghost use Rattle.protocol.specs.sections.Sections.{section_lem, Placed, Stage};
ghost use Rattle.protocol.specs.sections.Told.{LineStored, LineBehind, SectionTold};

use papers::records::Record;
use papers::refused::Refused;
use tables::Tables;

// The sections of a protocol text, each by its record.
#[derive(Clone, Copy)]
pub enum Section {
    Message,
    Event,
    State,
    Cell,
}

// Where a line starts, and its number.
#[derive(Clone, Copy)]
pub struct LineStart {
    pub at: usize,
    pub line: usize,
}

// Whether the line is a record of the section.
fn is_of(section: Section, line: &Record) -> bool
    ensures { result ≡ says_of (section_lem section) (split 9 line.now.bytes.now) }
{
    match section {
        Section::Message => line.is(text::words::MESSAGE),
        Section::Event => line.is(text::words::EVENT),
        Section::State => line.is(text::words::STATE),
        Section::Cell => line.is(text::words::CELL),
    }
}

// ---- one line of each section, stored behind what was read before it. Four functions: the rows differ, and so do the checks of a line.

fn read_message(line: &Record, nth: usize, t: &mut Tables) -> Result<(), Refused>
    requires word { says_of message (split 9 line.now.bytes.now) ≡ true }
    requires kept { Kept t.old }
    requires order { later_read message t.old ≡ false }
    ensures { LineStored message nth line.now.bytes.now t.old t.new result }
{
    let row = declarations::messages::message_line(line, nth, t.messages())?;
    t.messages[t.message_count] = row;
    t.message_count += 1;
    Ok(())
}

fn read_event(line: &Record, nth: usize, t: &mut Tables) -> Result<(), Refused>
    requires word { says_of event (split 9 line.now.bytes.now) ≡ true }
    requires kept { Kept t.old }
    requires order { later_read event t.old ≡ false }
    ensures { LineStored event nth line.now.bytes.now t.old t.new result }
{
    let row = declarations::events::event_line(line, nth, t.messages(), t.events())?;
    t.events[t.event_count] = row;
    t.event_count += 1;
    Ok(())
}

fn read_state(line: &Record, nth: usize, t: &mut Tables) -> Result<(), Refused>
    requires word { says_of state (split 9 line.now.bytes.now) ≡ true }
    requires kept { Kept t.old }
    requires order { later_read state t.old ≡ false }
    ensures { LineStored state nth line.now.bytes.now t.old t.new result }
{
    let row = declarations::states::state_line(line, nth, t.states())?;
    t.states[t.state_count] = row;
    t.state_count += 1;
    Ok(())
}

fn read_cell(line: &Record, nth: usize, t: &mut Tables) -> Result<(), Refused>
    requires word { says_of cell (split 9 line.now.bytes.now) ≡ true }
    requires kept { Kept t.old }
    ensures { LineStored cell nth line.now.bytes.now t.old t.new result }
{
    let row = cells::cell_line(line, nth, t)?;
    t.cells[t.cell_count] = row;
    t.cell_count += 1;
    Ok(())
}

// A switch and no closure: what a section's line does is promised by its section, once for the four.
fn read_line(section: Section, line: &Record, nth: usize, t: &mut Tables) -> Result<(), Refused>
    requires word { says_of (section_lem section) (split 9 line.now.bytes.now) ≡ true }
    requires kept { Kept t.old }
    requires order { later_read (section_lem section) t.old ≡ false }
    ensures { LineStored (section_lem section) nth line.now.bytes.now t.old t.new result }
{
    match section {
        Section::Message => read_message(line, nth, t),
        Section::Event => read_event(line, nth, t),
        Section::State => read_state(line, nth, t),
        Section::Cell => read_cell(line, nth, t),
    }
}

// ---- a section

// The line behind the last one of a section. The next section begins with it; behind the last section no line is left, so one that is there is too late for its
// section, or of none.
fn behind(section: Section, line: &Record, here: LineStart) -> Result<LineStart, Refused>
    requires { says_of (section_lem section) (split 9 line.now.bytes.now) ≡ false }
    ensures { LineBehind (section_lem section) line.now.bytes.now here result }
{
    match section {
        Section::Message | Section::Event | Section::State => Ok(here),
        Section::Cell => Err(lines::misplaced::misplaced(line, here.line)),
    }
}

// Reads the lines of a section, and answers where the first line starts that is not of it. Behind the last section such a line is refused (`behind`).
pub(crate) fn read_section(
    section: Section,
    text: &[u8],
    from: LineStart,
    t: &mut Tables,
) -> Result<LineStart, Refused>
    requires { Kept t.old × Placed text.now from.at from.line × Stage (section_lem section) text.now from.at t.old }
    ensures { SectionTold (section_lem section) text.now from t.old t.new result }
{
    let mut here = from;
    // a `while`: the place of the next line is found by its search, and answered behind the loop
    while here.at < text.len() {
        let next = lines::next::next_line(text, here.at);
        if !is_of(section, &next.line) {
            return behind(section, &next.line, here);
        }
        read_line(section, &next.line, here.line, t)?;
        here = LineStart {
            at: next.end + 1,
            line: here.line + 1,
        };
    }
    Ok(here)
}
