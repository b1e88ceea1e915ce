// Rule 3: the rows of stalls, over all the cells.
// `TablesOk` is asked for in contracts: `Tables` itself stands for every value (see there).
ghost use Rattle.std.specs.Prelude.{◌<◌};
ghost use Rattle.tables.specs.Cells.{TablesOk};
ghost use Rattle.tables.specs.Relations.{Adds, StallsRows};
ghost use Rattle.table_rows.specs.stalls.AtCell.{Column};

use crate::by_cells::CellRule;
use rows::WIDTH;
use rules::Message;
use tables::{Cell, Outcome, Tables, Trigger};

// The rows with b in the row of each a among who.
fn add_column(who: u64, b: Message, rows: &mut [u64; tables::MESSAGES])
    requires { b.0 < 64 }
    ensures { Adds (Column who b.0) rows.old rows.new }
{
    // over places and not over the rows: a row takes b in by its place
    for a in 0..tables::MESSAGES {
        if rows::has(who, a) {
            rows[a] = rows::with_bit(rows[a], b.index());
        }
    }
}

// Rule 3 at one cell: the stallers of its state stall the message that it stalls.
#[derive(Clone, Copy)]
struct Stalls<'a> {
    stallers: &'a [u64; tables::STATES],
}

impl CellRule for Stalls<'_> {
    ghost use Rattle.table_rows.specs.stalls.AtCell.{Among, CellStalls};

    ghost gives = { λ r c a b. CellStalls (Among r.stallers.now) c a b };

    fn add(&self, cell: &Cell, rows: &mut [u64; WIDTH]) {
        if cell.outcome == Outcome::Stall
            && let Trigger::Message(m) = cell.trigger
        {
            add_column(self.stallers[cell.state.index()], m, rows);
        }
    }
}

// Rule 3: which message stalls which.
pub fn stalls_rows(t: &Tables) -> [u64; tables::MESSAGES]
    requires { TablesOk t.now }
    ensures { StallsRows t.now result }
{
    let stallers = crate::stallers::staller_rows(t);
    let stalls = Stalls {
        stallers: &stallers,
    };
    crate::by_cells::rows_of(&stalls, t.cells())
}
