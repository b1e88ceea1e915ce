// What reading a cell's line gives: the cell that it stands for, where all that it names is known; else the first field that is not.
// The limits of the counts are asked for in contracts: `Tables` itself stands for every value (see there).
ghost use Rattle.std.specs.Prelude.{◌≡◌, ◌≤◌, ◌<◌, get_or, Ok};
ghost use Rattle.cells.specs.readings.Known.{CellRead};
ghost use Rattle.text.specs.Parts.{split};
ghost use Rattle.tables.specs.Tables.{no_state_row, states_of};
ghost use Rattle.lines.specs.Checks.{is_stable};
ghost use Rattle.cells.specs.shapes.Shape.{shape_of, StallLine, GoLine};

use crate::shapes::Shape;
use papers::records::Record;
use papers::refused::Field;
use rules::{Message, State};
use tables::{Cell, Controller, Outcome, Stability, Tables};

// A cell as it is read; it is stuck where it stalls in a stable state. A bool beside it and no Err: 9 FULL is told before 10 STALL_STABLE.
#[derive(Clone, Copy)]
pub struct CellReading {
    pub stuck: bool,
    pub cell: Cell,
}

// ---- a line with `stall`

// Whether a declared state is a stable one. A match, as the definition has its two cases.
fn in_stable(t: &Tables, state: State) -> bool
    requires { (state.0 < t.now.state_count) × (t.now.state_count ≤ 64) }
    ensures { result ≡ is_stable (get_or (states_of t.now) state.0 no_state_row).stability }
{
    match t.states()[state.index()].stability {
        Stability::Stable => true,
        Stability::Transient => false,
    }
}

// The cell of a line with `stall`.
fn stall_of(line: &Record, whose: Controller, t: &Tables) -> Result<CellReading, Field>
    requires { StallLine (split 9 line.now.bytes.now) whose × (t.now.message_count ≤ 64) × (t.now.event_count ≤ 8) × (t.now.state_count ≤ 64) }
    ensures { CellRead (split 9 line.now.bytes.now) t.now result }
{
    let at = crate::places::place_of(line, whose, t)?;
    Ok(CellReading {
        stuck: in_stable(t, at.state),
        cell: Cell {
            state: at.state,
            trigger: at.trigger,
            outcome: Outcome::Stall,
            sent: [Message(0); tables::SENT],
            sent_count: 0,
        },
    })
}

// ---- a line with `go`

// The cell of a line with `go`.
fn go_of(line: &Record, whose: Controller, t: &Tables) -> Result<CellReading, Field>
    requires { GoLine (split 9 line.now.bytes.now) whose × (t.now.message_count ≤ 64) × (t.now.event_count ≤ 8) × (t.now.state_count ≤ 64) }
    ensures { CellRead (split 9 line.now.bytes.now) t.now result }
{
    let at = crate::places::place_of(line, whose, t)?;
    let to = crate::targets::target_of(line, whose, t)?;
    let sent = to.sent.sent;
    Ok(CellReading {
        stuck: false,
        cell: Cell {
            state: at.state,
            trigger: at.trigger,
            outcome: Outcome::Go(to.next),
            sent,
            sent_count: to.sent.count,
        },
    })
}

// ---- a line of either shape

// The cell of a line of this shape.
pub(crate) fn reading_of(line: &Record, shape: Shape, t: &Tables) -> Result<CellReading, Field>
    requires { (Ok shape ≡ shape_of (split 9 line.now.bytes.now)) × (t.now.message_count ≤ 64) × (t.now.event_count ≤ 8) × (t.now.state_count ≤ 64) }
    ensures { CellRead (split 9 line.now.bytes.now) t.now result }
{
    match shape {
        Shape::Stall(whose) => stall_of(line, whose, t),
        Shape::Go(whose) => go_of(line, whose, t),
    }
}
