// Where a cell stands: the state and the trigger that its line names.
// The limits of the counts are asked for in contracts: `Tables` itself stands for every value (see there).
ghost use Rattle.std.specs.Prelude.{◌≤◌};
ghost use Rattle.text.specs.Parts.{split};
ghost use Rattle.cells.specs.places.Place.{TriggerTold, PlaceTold};

use papers::records::Record;
use papers::refused::Field;
use rules::State;
use tables::{Controller, Tables, Trigger};

#[derive(Clone, Copy)]
pub struct Place {
    pub state: State,
    pub trigger: Trigger,
}

// The trigger with this name: a message, or on the cache also an event.
fn trigger_at(part: &[u8], whose: Controller, t: &Tables) -> Option<Trigger>
    requires { (t.now.message_count ≤ 64) × (t.now.event_count ≤ 8) }
    ensures { TriggerTold part.now whose t.now result }
{
    if let Some(m) = tables::names::message_named(t.messages(), part) {
        return Some(Trigger::Message(m));
    }
    match whose {
        Controller::Cache => tables::names::event_named(t.events(), part).map(Trigger::Event),
        Controller::Dir => None,
    }
}

// The state and the trigger that the line names, where both are known; else the first field that is not.
pub(crate) fn place_of(line: &Record, whose: Controller, t: &Tables) -> Result<Place, Field>
    requires { (5 ≤ line.now.fields.count) × (t.now.message_count ≤ 64) × (t.now.event_count ≤ 8) × (t.now.state_count ≤ 64) }
    ensures { PlaceTold (split 9 line.now.bytes.now) whose t.now result }
{
    let Some(state) = tables::names::state_named(t.states(), whose, line.field(2)) else {
        return Err(Field(3));
    };
    let Some(trigger) = trigger_at(line.field(3), whose, t) else {
        return Err(Field(4));
    };
    Ok(Place { state, trigger })
}
