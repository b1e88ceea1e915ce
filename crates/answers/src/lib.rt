// What the calls on texts answer, and how a host gets it as one number.
#![tactic(auto)]

pub mod refused_text;
pub mod unlisted;

ghost use Rattle.std.specs.Prelude.{◌≡◌, ◌≤◌, take};
ghost use Rattle.answers.specs.unlisted.Unlisted.{answer_of};
ghost use Rattle.answers.specs.Answers.{refused_at_lem, no_room_lem, finished, Small, shown_length_lem, packed_answer};

use crate::unlisted::Unlisted;
use papers::Refusal;
use papers::refused::Reason;

// Room for whatever a program prints.
pub const PRINTED: usize = 4096;

// What a program prints: so many bytes at the front.
// An array and a count, and no Vec: memory is fixed in this repository. files::Text is such a type too, but print_plan and print_judgement, which the
// docs name, are promised by these two fields.
#[derive(Clone, Copy)]
pub struct PrintedBytes {
    pub bytes: [u8; PRINTED],
    pub length: usize,
}

impl PrintedBytes {
    // The bytes that are printed.
    pub fn as_slice(&self) -> &[u8]
        requires { self.now.length ≤ 4096 }
        ensures { result.now ≡ take self.now.length self.now.bytes }
    {
        &self.bytes[..self.length]
    }
}

// The answer of a call on texts as a host gets it, through the C interface: in numbers, so with no enum. Every number is 0 unless the paper says
// otherwise.
#[derive(Clone, Copy)]
pub struct Answer {
    // why and where a paper is refused; its number is 0 on success
    pub refusal: Refusal,
    // the paper that is refused: 0 the protocol, 1 the mapping
    pub paper: u8,
    // how many bytes are written
    pub length: usize,
    // with refusal 16, the length needed
    pub needed: usize,
}

// A refusal of a paper.
pub fn refused(why: Refusal, paper: u8) -> Answer
    ensures { result ≡ refused_at_lem why paper }
{
    Answer {
        refusal: why,
        paper: paper,
        length: 0,
        needed: 0,
    }
}

// Refusal 16: the listing is longer than the lent output.
pub fn no_room(needed: usize) -> Answer
    ensures { result ≡ no_room_lem needed }
{
    Answer {
        refusal: Refusal {
            number: Reason::Room as u8,
            line: 0,
            field: 0,
        },
        paper: 0,
        length: 0,
        needed: needed,
    }
}

// The listing stands at the front of the output.
pub fn listed(length: usize) -> Answer
    ensures { result ≡ finished length }
{
    Answer {
        refusal: Refusal {
            number: 0,
            line: 0,
            field: 0,
        },
        paper: 0,
        length: length,
        needed: 0,
    }
}

impl Answer {
    // The same in numbers, as a host gets it.
    pub fn of(told: Result<usize, Unlisted>) -> Answer
        ensures { result ≡ answer_of told }
    {
        match told {
            Ok(length) => listed(length),
            Err(Unlisted::Refused(why, paper)) => refused(why.refusal(), paper.number()),
            Err(Unlisted::NoRoom(r)) => no_room(r.needed),
        }
    }
}

// The length written; with refusal 16, the length needed.
fn shown_length(a: Answer) -> usize
    ensures { result ≡ shown_length_lem a }
{
    if a.refusal.number == Reason::Room as u8 {
        return a.needed;
    }
    a.length
}

// The answer as one number, for a host. No From: that could ask nothing, and the contract asks that each number has its place.
pub fn packed(a: Answer) -> u64
    requires { Small a }
    ensures { result ≡ packed_answer a }
{
    let number = a.refusal.number as u64;
    let paper = a.paper as u64;
    let line = a.refusal.line as u64;
    let field = a.refusal.field as u64;
    let length = shown_length(a) as u64;
    number + paper * 256 + line * 65536 + length * 4294967296 + field * 281474976710656
}
