// Where a cell goes to, and what it sends.
// The limits of the counts are asked for in contracts: `Tables` itself stands for every value (see there).
ghost use Rattle.std.specs.Prelude.{◌≤◌};
ghost use Rattle.text.specs.Parts.{split};
ghost use Rattle.lines.specs.Line.{sent_fields};
ghost use Rattle.cells.specs.targets.Target.{SentTold, TargetTold};

use papers::records::Record;
use papers::refused::Field;
use rules::{Message, State};
use tables::{Controller, Tables};

// The messages that a line sends. An array of full size with its count, as in `Cell`: the tables are in fixed memory, with no heap.
#[derive(Clone, Copy)]
pub struct Sent {
    pub sent: [Message; tables::SENT],
    pub count: u8,
}

// Where a cell goes to and what it sends.
#[derive(Clone, Copy)]
pub struct Target {
    pub next: State,
    pub sent: Sent,
}

// The messages sent, which the line names from field 6 on, where all are known; else the first field that is not.
fn sent_of(line: &Record, t: &Tables) -> Result<Sent, Field>
    requires { (6 ≤ line.now.fields.count) × (line.now.fields.count ≤ 14) × (t.now.message_count ≤ 64) }
    ensures { SentTold (sent_fields (split 9 line.now.bytes.now)) t.now result }
{
    let n = line.count() - 6;
    let mut sent = [Message(0); tables::SENT];
    for j in 0..n {
        let Some(m) = tables::names::message_named(t.messages(), line.field(6 + j)) else {
            return Err(Field((7 + j) as u8));
        };
        sent[j] = m;
    }
    Ok(Sent {
        sent,
        count: n as u8,
    })
}

// The next state and the messages sent, where all of that is known; else the first field that is not.
pub(crate) fn target_of(line: &Record, whose: Controller, t: &Tables) -> Result<Target, Field>
    requires { (6 ≤ line.now.fields.count) × (line.now.fields.count ≤ 14) × (t.now.message_count ≤ 64) × (t.now.state_count ≤ 64) }
    ensures { TargetTold (split 9 line.now.bytes.now) whose t.now result }
{
    let Some(next) = tables::names::state_named(t.states(), whose, line.field(5)) else {
        return Err(Field(6));
    };
    let sent = sent_of(line, t)?;
    Ok(Target { next, sent })
}
