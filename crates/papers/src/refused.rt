// Why and where a paper is refused, from the line that finds it to the answer.
ghost use Rattle.std.specs.Prelude.{◌≡◌};
ghost use Rattle.papers.specs.Checks.{field_refusal};
ghost use Rattle.papers.specs.refused.Refused.{number_of, told_refusal};

use crate::Refusal;

// The refusal table: a reason for each number.
#[derive(Clone, Copy, PartialEq, Eq)]
pub enum Reason {
    TooBig = 1,
    NoEnd,
    Header,
    Shape,
    Order,
    Name,
    Unknown,
    Twice,
    Full,
    StallStable,
    Conflict,
    NoMessage,
    NoEntry,
    Unmatched,
    Network,
    Room,
    Count,
    Stray,
}

// The field that a refusal tells, counted from 1; 0 where the whole line or text is meant. So the request says it (C-14), and so it is no Option.
#[derive(Clone, Copy, PartialEq, Eq)]
pub struct Field(pub u8);

#[derive(Clone, Copy, PartialEq, Eq)]
pub struct Refused {
    pub why: Reason,
    pub line: usize,
    pub field: Field,
}

impl Reason {
    // The number that the refusal table gives it.
    pub fn number(self) -> u8
        ensures { result ≡ number_of self }
    {
        self as u8
    }
}

impl Refused {
    // Of a line, or of a text, as a whole.
    pub fn whole(why: Reason, line: usize) -> Refused
        ensures { told_refusal result ≡ field_refusal (number_of why) line 0 }
    {
        Refused {
            why,
            line,
            field: Field(0),
        }
    }

    // Of a field of a line.
    pub fn at(why: Reason, line: usize, field: Field) -> Refused
        ensures { told_refusal result ≡ field_refusal (number_of why) line field.0 }
    {
        Refused { why, line, field }
    }

    // The same in numbers.
    pub fn refusal(self) -> Refusal
        ensures { result ≡ told_refusal self }
    {
        Refusal {
            number: self.why.number(),
            line: self.line,
            field: self.field.0,
        }
    }
}
