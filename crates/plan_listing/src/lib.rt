// The listing of a plan: the lines that both classes begin with. Each line is written at the front of what is lent.
// Lengths and writers are functions of their own: one over a sink that counts or writes needs a trait, laws and two impls for a few sums.
#![tactic(auto)]

pub mod cycle;
pub mod maps;

ghost use Rattle.std.specs.Prelude.{◌≤◌, length};
ghost use Rattle.text.specs.Written.{Wrote};
ghost use Rattle.plan_listing.specs.PlanText.{number_line, class_head};

// How many bytes the header and the class have, a line each. A class is one digit.
pub(crate) const CLASS_HEAD: usize = text::words::PLAN_HEADER.len()
    + text::words::NEWLINE.len()
    + text::words::CLASS.len()
    + text::words::TAB.len()
    + 1
    + text::words::NEWLINE.len();

// The line of a word and a number.
pub(crate) fn put_number_line(out: &mut [u8], word: &[u8], n: u32) -> usize
    requires { length (number_line word.now n) ≤ length out.old }
    ensures { Wrote (number_line word.now n) out.old out.new result }
{
    let a = text::put(out, word);
    let b = text::writers::more(out, a, text::words::TAB);
    let c = text::writers::more_number(out, b, n);
    text::writers::more(out, c, text::words::NEWLINE)
}

// The header and the class, a line each. The class is the number that is printed, so it is no enum.
pub(crate) fn put_head(out: &mut [u8], class: u32) -> usize
    requires { length (class_head class) ≤ length out.old }
    ensures { Wrote (class_head class) out.old out.new result }
{
    let a = text::put(out, text::words::PLAN_HEADER);
    let b = text::writers::more(out, a, text::words::NEWLINE);
    b + put_number_line(&mut out[b..], text::words::CLASS, class)
}
