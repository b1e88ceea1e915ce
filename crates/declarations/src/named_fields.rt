// The field of a line that declares a name.
ghost use Rattle.declarations.specs.named_fields.Told.{NameTold};

use papers::refused::{Field, Reason, Refused};
use text::Name;

// The name that a field of the nth line declares, or how the line is refused for it: of the reasons that hold, the first of this order.
pub(crate) fn declared_name(
    part: &[u8],
    field: Field,
    nth: usize,
    declared: bool,
    full: bool,
) -> Result<Name, Refused>
    ensures { NameTold nth field.0 part.now declared full result }
{
    if !text::names::is_name(part) {
        return Err(Refused::at(Reason::Name, nth, field));
    }
    if declared {
        return Err(Refused::at(Reason::Twice, nth, field));
    }
    if full {
        return Err(Refused::whole(Reason::Full, nth));
    }
    Ok(text::names::name_of(part))
}
