// The line of a step of the shown cycle.
ghost use Rattle.std.specs.Prelude.{◌≡◌, ◌+◌, ◌≤◌, length};
ghost use Rattle.text.specs.Written.{Wrote, Pasted};
ghost use Rattle.plan_listing.specs.Lengths.{TextLength};
ghost use Rattle.judge_listing.specs.step_lines.StepLine.{between, word_text, shown_word, named_line};

use text::Name;

// How many bytes a step's line has beside its names and its word: `step`, a tab before each of the three, and the end of the line.
const STEP_FIXED: usize = text::words::STEP.len()
    + text::words::TAB.len()
    + text::words::TAB.len()
    + text::words::TAB.len()
    + text::words::NEWLINE.len();

// The word between a step's names.
#[derive(Clone, Copy)]
pub enum StepWord {
    Waits,
    Queues,
}

// A step as its line shows it: two names, and the word between them.
#[derive(Clone, Copy)]
pub struct NamedStep {
    pub from: Name,
    pub word: StepWord,
    pub to: Name,
}

impl StepWord {
    // The word as it is written.
    fn text(self) -> &'static [u8]
        ensures { result.now ≡ word_text (shown_word self) }
    {
        match self {
            StepWord::Waits => text::words::WAITS,
            StepWord::Queues => text::words::QUEUES,
        }
    }
}

// A step's word between its tabs, at a place of out.
fn more_between(out: &mut [u8], at: usize, word: StepWord) -> usize
    requires { at + length (between (word_text (shown_word word))) ≤ length out.old }
    ensures { Pasted (between (word_text (shown_word word))) at out.old out.new result }
{
    let a = text::writers::more(out, at, text::words::TAB);
    let b = text::writers::more(out, a, word.text());
    text::writers::more(out, b, text::words::TAB)
}

impl NamedStep {
    // How many bytes the step's line has: at most 62, with two names of 24 bytes and the longer word. A writer that only counts would say this sum
    // no shorter.
    pub(crate) fn length(self) -> usize
        ensures { TextLength (named_line self) 62 result }
    {
        STEP_FIXED
            + text::names::name_length(self.from)
            + self.word.text().len()
            + text::names::name_length(self.to)
    }

    // The step's line at the front of out.
    pub(crate) fn put(self, out: &mut [u8]) -> usize
        requires { length (named_line self) ≤ length out.old }
        ensures { Wrote (named_line self) out.old out.new result }
    {
        let a = text::put(out, text::words::STEP);
        let b = text::writers::more(out, a, text::words::TAB);
        let c = text::writers::more_name(out, b, self.from);
        let d = more_between(out, c, self.word);
        let e = text::writers::more_name(out, d, self.to);
        text::writers::more(out, e, text::words::NEWLINE)
    }
}
