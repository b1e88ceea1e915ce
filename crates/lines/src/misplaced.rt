// How a line is refused that stands behind a later section, or is of no section.
ghost use Rattle.std.specs.Prelude.{◌≡◌, false};
ghost use Rattle.text.specs.Parts.{split};
ghost use Rattle.text.specs.Words.{cell_word};
ghost use Rattle.text.specs.Line.{says};
ghost use Rattle.papers.specs.refused.Refused.{told_refusal};
ghost use Rattle.lines.specs.misplaced.Place.{late_told, Misplaced};

use papers::records::Record;
use papers::refused::{Field, Reason, Refused};

// How the nth line is refused that comes too late, by its shape: the smaller number goes first, so a line that is not shaped is not asked for its
// place.
fn late<T: Drop>(shape: Result<T, Field>, nth: usize) -> Refused
    ensures { told_refusal result ≡ late_told shape nth }
{
    match shape {
        Ok(_) => Refused::whole(Reason::Order, nth),
        Err(field) => Refused::at(Reason::Shape, nth, field),
    }
}

// How the nth line, which is no cell, is refused where it stands behind a later section, or is of no section.
pub fn misplaced(line: &Record, nth: usize) -> Refused
    requires { says (split 9 line.now.bytes.now) 0 cell_word ≡ false }
    ensures { Misplaced nth line.now.bytes.now (told_refusal result) }
{
    if line.is(text::words::MESSAGE) {
        return late(crate::shapes::message_shape(line), nth);
    }
    if line.is(text::words::EVENT) {
        return late(crate::shapes::event_shape(line), nth);
    }
    if line.is(text::words::STATE) {
        return late(crate::shapes::state_shape(line), nth);
    }
    Refused::at(Reason::Shape, nth, Field(1))
}
