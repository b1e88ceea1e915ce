// The shape of a cell's line.
ghost use Rattle.std.specs.Prelude.{◌≡◌};
ghost use Rattle.text.specs.Parts.{split};
ghost use Rattle.cells.specs.shapes.Shape.{shape_of};

use papers::records::Record;
use papers::refused::Field;
use tables::Controller;

// A stall has so many fields, and a `go` one to nine more: its next state, and the messages sent.
const STALL_FIELDS: usize = 5;

const MOST_FIELDS: usize = STALL_FIELDS + 1 + tables::SENT;

// Whose cell a line is of, and whether it stalls or goes on.
#[derive(Clone, Copy)]
pub enum Shape {
    Stall(Controller),
    Go(Controller),
}

// Five fields with `stall`, or six to fourteen with `go`; else the field of the first fixed word that is wrong, also where the count is wrong
// too, and 0 where only that is.
pub(crate) fn shape_of(line: &Record) -> Result<Shape, Field>
    ensures { result ≡ shape_of (split 9 line.now.bytes.now) }
{
    let n = line.count();
    if n < 2 {
        return Err(Field(0));
    }
    let Some(whose) = lines::words::controller_at(line, 1) else {
        return Err(Field(2));
    };
    if n < STALL_FIELDS {
        return Err(Field(0));
    }
    if line.says(4, text::words::STALL) {
        if n == STALL_FIELDS {
            return Ok(Shape::Stall(whose));
        }
        return Err(Field(0));
    }
    if line.says(4, text::words::GO) {
        if n == STALL_FIELDS {
            return Err(Field(0));
        }
        if MOST_FIELDS < n {
            return Err(Field(0));
        }
        return Ok(Shape::Go(whose));
    }
    Err(Field(5))
}
