// The line that a program prints on a refusal.
ghost use Rattle.std.specs.Prelude.{◌+◌, ◌≤◌, ◌<◌, length};
ghost use Rattle.text.specs.Written.{Wrote, Pasted};
ghost use Rattle.answers.specs.refused_text.RefusedText.{tabbed_number, refused_text_lem};

use papers::Refusal;

// A tab and a number, at a place of out.
fn more_tabbed(out: &mut [u8], at: usize, n: u32) -> usize
    requires { at + length (tabbed_number n) ≤ length out.old }
    ensures { Pasted (tabbed_number n) at out.old out.new result }
{
    let b = text::writers::more(out, at, text::words::TAB);
    text::writers::more_number(out, b, n)
}

// What a program prints on a refusal, at the front of out: numbers, so it is lent numbers. (The docs name it: a narrower type would ask more.)
pub fn put_refused(out: &mut [u8], why: Refusal, paper: u8) -> usize
    requires { (length (refused_text_lem why paper) ≤ length out.old) × (why.line < 4294967296) }
    ensures { Wrote (refused_text_lem why paper) out.old out.new result }
{
    let a = text::put(out, text::words::REFUSED);
    let b = more_tabbed(out, a, why.number as u32);
    let c = more_tabbed(out, b, paper as u32);
    let d = more_tabbed(out, c, why.line as u32);
    let e = more_tabbed(out, d, why.field as u32);
    text::writers::more(out, e, text::words::NEWLINE)
}
