// The lines that declare states: how each is refused, and what it stands for.
ghost use Rattle.std.specs.Prelude.{◌≡◌, true, ◌≤◌, length};
ghost use Rattle.text.specs.Parts.{split};
ghost use Rattle.text.specs.Words.{state_word};
ghost use Rattle.text.specs.Line.{says};
ghost use Rattle.declarations.specs.states.Told.{StateTold};

use papers::records::Record;
use papers::refused::{Field, Reason, Refused};
use tables::StateRow;

// The field of the name, counted from 1.
const NAME_FIELD: Field = Field(3);

// A state's line, while no cell was read.
pub fn state_line(line: &Record, nth: usize, states: &[StateRow]) -> Result<StateRow, Refused>
    requires { (says (split 9 line.now.bytes.now) 0 state_word ≡ true) × (length states.now ≤ 64) }
    ensures { StateTold nth line.now.bytes.now states.now result }
{
    let shape = lines::shapes::state_shape(line);
    let (controller, stability) = shape.map_err(|field| Refused::at(Reason::Shape, nth, field))?;
    let part = line.field(2);
    let declared = tables::names::state_named(states, controller, part).is_some();
    let full = tables::STATES <= states.len();
    let name = crate::named_fields::declared_name(part, NAME_FIELD, nth, declared, full)?;
    Ok(StateRow {
        name,
        controller,
        stability,
    })
}
