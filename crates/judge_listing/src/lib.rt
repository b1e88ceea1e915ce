// The listing of a judgement: the lines that both verdicts begin with, and the steps that an unfit mapping is shown by.
#![tactic(auto)]

pub mod fit;
pub mod step_lines;

ghost use Rattle.std.specs.Prelude.{◌≡◌, ◌+◌, ◌<◌, ◌≤◌, length};
ghost use Rattle.text.specs.Name.{name_text};
ghost use Rattle.text.specs.Written.{Wrote, Pasted};
ghost use Rattle.plan_listing.specs.PlanText.{name_at, message_numbers};
ghost use Rattle.answers.specs.Answers.{Listed};
ghost use Rattle.answers.specs.unlisted.Unlisted.{listed_of};
ghost use Rattle.judge_listing.specs.fit.FitText.{verdict_head};
ghost use Rattle.judge_listing.specs.step_lines.StepLine.{named_line, shown_word};
ghost use Rattle.judge_listing.specs.JudgeText.{unfit_text, step_text, step_texts, word_in};
ghost use Rattle.judge_listing.specs.Places.{GivenWalk, walk_steps, next_place_lem, step_at_lem};

use crate::step_lines::{NamedStep, StepWord};
use answers::unlisted::NoRoom;
use rules::Message;
use tables::MessageRow;
use text::Name;

// How many bytes the header and the verdict's line have, but for the verdict: the header and two ends of lines.
pub(crate) const VERDICT_HEAD: usize = text::words::JUDGE_HEADER.len()
    + text::words::NEWLINE.len()
    + text::words::NEWLINE.len();

// How many bytes of the listing of an unfit mapping stand before its steps: the head, and `unfit` in it.
const BEFORE_STEPS: usize = VERDICT_HEAD + text::words::UNFIT.len();

// The header and the verdict's line, at the front of out.
pub(crate) fn put_verdict(out: &mut [u8], verdict: &[u8]) -> usize
    requires { length (verdict_head verdict.now) ≤ length out.old }
    ensures { Wrote (verdict_head verdict.now) out.old out.new result }
{
    let a = text::put(out, text::words::JUDGE_HEADER);
    let b = text::writers::more(out, a, text::words::NEWLINE);
    let c = text::writers::more(out, b, verdict);
    text::writers::more(out, c, text::words::NEWLINE)
}

// The place after i in a closed walk.
fn next_place(i: usize, count: usize) -> usize
    requires { i < count }
    ensures { result ≡ next_place_lem count i }
{
    if i + 1 == count {
        return 0;
    }
    i + 1
}

// A closed walk: its messages, the rows that name them, and the rows of waits that tell each step's word.
#[derive(Clone, Copy)]
struct Walk<'a> {
    rows: &'a [MessageRow],
    cycle: &'a [Message],
    waits: &'a [u64],
    ghost given: { GivenWalk rows.now cycle.now waits.now },
}

impl Walk<'_> {
    // The name of a message.
    fn name(&self, m: Message) -> Name
        requires { m.0 < length self.now.rows.now }
        ensures { name_text result ≡ name_at self.now.rows.now m.0 }
    {
        self.rows[m.index()].name
    }

    // The word of the step from one message to another.
    fn word(&self, from: Message, to: Message) -> StepWord
        requires { (from.0 < length self.now.rows.now) × (to.0 < length self.now.rows.now) }
        ensures { shown_word result ≡ word_in self.now.waits.now from.0 to.0 }
    {
        if rows::has(self.waits[from.index()], to.index()) {
            return StepWord::Waits;
        }
        StepWord::Queues
    }

    // The step at place i.
    fn step_at(&self, i: usize) -> NamedStep
        requires { i < length self.now.cycle.now }
        ensures { named_line result ≡ step_text self.now.rows.now (step_at_lem (word_in self.now.waits.now) (message_numbers self.now.cycle.now) i) }
    {
        let from = self.cycle[i];
        let to = self.cycle[next_place(i, self.cycle.len())];
        NamedStep {
            from: self.name(from),
            word: self.word(from, to),
            to: self.name(to),
        }
    }

    // How many bytes the listing has, before it is written. A step leads to the next place, so both loops go over places.
    fn listing_length(&self) -> usize
        ensures { result ≡ length (unfit_text self.now.rows.now (walk_steps self.now.waits.now self.now.cycle.now)) }
    {
        let mut n = BEFORE_STEPS;
        for counted in 0..self.cycle.len() {
            n += self.step_at(counted).length();
        }
        n
    }

    // The lines of all steps, from a place of out on. Each is lent the rest of the output.
    fn more_steps(&self, out: &mut [u8], start: usize) -> usize
        requires { start + length (step_texts self.now.rows.now (walk_steps self.now.waits.now self.now.cycle.now)) ≤ length out.old }
        ensures { Pasted (step_texts self.now.rows.now (walk_steps self.now.waits.now self.now.cycle.now)) start out.old out.new result }
    {
        let mut at = start;
        for written in 0..self.cycle.len() {
            at += self.step_at(written).put(&mut out[at..]);
        }
        at
    }
}

// The listing of an unfit mapping, if there is room for it: the steps of the shown cycle. The rows of waits tell each step's word.
pub fn unfit_listing(
    messages: &[MessageRow],
    cycle: &[Message],
    waits: &[u64],
    out: &mut [u8],
) -> Result<usize, NoRoom>
    requires { GivenWalk messages.now cycle.now waits.now }
    ensures { Listed (unfit_text messages.now (walk_steps waits.now cycle.now)) out.old out.new (listed_of result) }
{
    let walk = Walk {
        rows: messages,
        cycle,
        waits,
    };
    let needed = walk.listing_length();
    if out.len() < needed {
        return Err(NoRoom { needed });
    }
    let at = put_verdict(out, text::words::UNFIT);
    let end = walk.more_steps(out, at);
    Ok(end)
}
