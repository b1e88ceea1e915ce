// What every paper has in common: it is not too big, its last line ends, and it begins with its header.
#![tactic(auto)]

pub mod records;
pub mod refused;

ghost use Rattle.std.specs.Prelude.{◌≡◌};
ghost use Rattle.papers.specs.refused.Refused.{refusal_of};
ghost use Rattle.papers.specs.Opening.{opening_of};

use crate::refused::{Reason, Refused};

// The most bytes that a text may have.
pub const MOST_BYTES: usize = 49152;

// Why and where a paper is refused, in the numbers that a host gets (the C interface) and that a program prints. Its number is 0 where nothing is
// refused.
#[derive(Clone, Copy)]
pub struct Refusal {
    pub number: u8,
    pub line: usize,
    // counted from 1; 0 where the whole line or text is meant
    pub field: u8,
}

// Nothing, or how a text with this header is refused before its lines are read.
pub fn opening(header: &[u8], text: &[u8]) -> Result<(), Refused>
    ensures { refusal_of result ≡ opening_of header.now text.now }
{
    let n = text.len();
    if MOST_BYTES < n {
        return Err(Refused::whole(Reason::TooBig, 0));
    }
    if n == 0 {
        return Err(Refused::whole(Reason::Header, 1));
    }
    if text[n - 1] != 10 {
        return Err(Refused::whole(Reason::NoEnd, text::count(text, 10) + 1));
    }
    let e = text::find(text, 10, 0, n);
    if !text::same(&text[..e], header) {
        return Err(Refused::whole(Reason::Header, 1));
    }
    Ok(())
}
