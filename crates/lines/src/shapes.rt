// Whether a line of a message, an event or a state is shaped, and what its fixed words say; else the field of the first that is wrong,
// also where the count is wrong too, and 0 where only that is.
ghost use Rattle.std.specs.Prelude.{◌≡◌};
ghost use Rattle.text.specs.Parts.{split};
ghost use Rattle.lines.specs.shapes.Shapes.{message_shape_lem, event_shape_lem, state_shape_lem};

use papers::records::Record;
use papers::refused::Field;
use tables::{Controller, Kind, Stability};

// The type of a message's line, where that is shaped.
pub fn message_shape(line: &Record) -> Result<Kind, Field>
    ensures { result ≡ message_shape_lem (split 9 line.now.bytes.now) }
{
    if line.count() < 3 {
        return Err(Field(0));
    }
    let Some(kind) = crate::words::kind_at(line, 2) else {
        return Err(Field(3));
    };
    if line.count() != 3 {
        return Err(Field(0));
    }
    Ok(kind)
}

// That an event's line is shaped.
pub fn event_shape(line: &Record) -> Result<(), Field>
    ensures { result ≡ event_shape_lem (split 9 line.now.bytes.now) }
{
    if line.count() != 2 {
        return Err(Field(0));
    }
    Ok(())
}

// The controller and the kind of a state's line, where that is shaped.
pub fn state_shape(line: &Record) -> Result<(Controller, Stability), Field>
    ensures { result ≡ state_shape_lem (split 9 line.now.bytes.now) }
{
    if line.count() < 2 {
        return Err(Field(0));
    }
    let Some(controller) = crate::words::controller_at(line, 1) else {
        return Err(Field(2));
    };
    if line.count() < 4 {
        return Err(Field(0));
    }
    let Some(stability) = crate::words::stability_at(line, 3) else {
        return Err(Field(4));
    };
    if line.count() != 4 {
        return Err(Field(0));
    }
    Ok((controller, stability))
}
