// A cell's line of a protocol text: the cell it stands for, or how it is refused.
// The limits of the counts are asked for in contracts: `Tables` itself stands for every value (see there).
#![tactic(auto)]

pub mod places;
pub mod readings;
pub mod shapes;
pub mod targets;

ghost use Rattle.std.specs.Prelude.{◌≡◌, true, ◌≤◌};
ghost use Rattle.text.specs.Parts.{split};
ghost use Rattle.text.specs.Words.{cell_word};
ghost use Rattle.text.specs.Line.{says};
ghost use Rattle.cells.specs.Told.{CellTold, CellJudged};

use crate::readings::CellReading;
use papers::records::Record;
use papers::refused::{Field, Reason, Refused};
use tables::{Cell, Tables};

// The refusals 9 to 11 of the nth line, the smallest number first.
fn judged(at: CellReading, nth: usize, t: &Tables) -> Result<Cell, Refused>
    requires { t.now.cell_count ≤ 512 }
    ensures { CellJudged at nth t.now result }
{
    if tables::CELLS <= t.cell_count {
        return Err(Refused::whole(Reason::Full, nth));
    }
    if at.stuck {
        return Err(Refused::whole(Reason::StallStable, nth));
    }
    if tables::conflicts::any_clash(t.cells(), &at.cell) {
        return Err(Refused::whole(Reason::Conflict, nth));
    }
    Ok(at.cell)
}

// The cell that the nth line stands for, a cell's, or how the line is refused.
pub fn cell_line(line: &Record, nth: usize, t: &Tables) -> Result<Cell, Refused>
    requires { (says (split 9 line.now.bytes.now) 0 cell_word ≡ true) × (t.now.message_count ≤ 64) × (t.now.event_count ≤ 8) × (t.now.state_count ≤ 64) × (t.now.cell_count ≤ 512) }
    ensures { CellTold nth line.now.bytes.now t.now result }
{
    let misshapen = |field: Field| Refused::at(Reason::Shape, nth, field);
    let unknown = |field: Field| Refused::at(Reason::Unknown, nth, field);
    let shape = crate::shapes::shape_of(line).map_err(misshapen)?;
    let at = crate::readings::reading_of(line, shape, t).map_err(unknown)?;
    judged(at, nth, t)
}
