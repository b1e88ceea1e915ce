// Texts as bytes: compared, searched, counted and copied; and what fields and names are kept in.
#![tactic(auto)]

pub mod line_fields;
pub mod names;
pub mod words;
pub mod writers;

ghost use Rattle.std.specs.Prelude.{◌≡◌, ◌≤◌, length};
ghost use Rattle.text.specs.Parts.{is_same_text, place, how_many};
ghost use Rattle.text.specs.Written.{Wrote};

// The most bytes of a name.
pub const NAME_BYTES: usize = 24;

// The most fields of a line that are looked at: one more than the longest record has, so that a line that is too long is told.
pub const FIELDS: usize = 15;

// A declared name: its bytes, zeros behind them, and how many bytes it has. Memory is fixed, so a name is no String.
#[derive(Clone, Copy)]
pub struct Name {
    pub bytes: [u8; NAME_BYTES],
    pub length: u8,
}

// Where a field starts and where it ends.
#[derive(Clone, Copy, PartialEq, Eq)]
pub struct Span {
    pub from: usize,
    pub to: usize,
}

// The fields of a line, at most so many. Past the count there are spans of zeros. Memory is fixed, so the count stands beside the array.
#[derive(Clone, Copy)]
pub struct Fields {
    pub count: usize,
    pub spans: [Span; FIELDS],
}

// Whether two texts hold the same bytes.
pub fn same(a: &[u8], b: &[u8]) -> bool
    ensures { result ≡ is_same_text a.now b.now }
{
    a == b
}

// The first place of b at or after from and before to, and to where there is none: no Option, since the docs name this contract (`place`).
pub fn find(text: &[u8], b: u8, from: usize, to: usize) -> usize
    requires { (from ≤ to) × (to ≤ length text.now) }
    ensures { result ≡ place b text.now from to }
{
    for at in from..to {
        if text[at] == b {
            return at;
        }
    }
    to
}

// How many bytes of the text are b. A `for`: `filter` and `count` take two to three times as long.
pub fn count(text: &[u8], b: u8) -> usize
    ensures { result ≡ how_many b text.now }
{
    let mut n = 0;
    for byte in text {
        if *byte == b {
            n += 1;
        }
    }
    n
}

// The text at the front of out.
pub fn put(out: &mut [u8], text: &[u8]) -> usize
    requires { length text.now ≤ length out.old }
    ensures { Wrote text.now out.old out.new result }
{
    out[..text.len()].copy_from_slice(text);
    text.len()
}
