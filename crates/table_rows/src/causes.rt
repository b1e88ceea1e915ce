// Rule 1: the rows of causes, over all the cells.
// `TablesOk` is asked for in contracts: `Tables` itself stands for every value (see there).
ghost use Rattle.tables.specs.Cells.{TablesOk};
ghost use Rattle.tables.specs.Relations.{CausesRows};

use crate::by_cells::CellRule;
use rows::WIDTH;
use tables::{Cell, Outcome, Tables, Trigger};

// Rule 1 at one cell.
struct Causes;

impl CellRule for Causes {
    ghost use Rattle.table_rows.specs.causes.AtCell.{CellCauses};

    ghost gives = { λ _ c a b. CellCauses c a b };

    fn add(&self, cell: &Cell, rows: &mut [u64; WIDTH]) {
        if let Outcome::Go(_) = cell.outcome
            && let Trigger::Message(m) = cell.trigger
        {
            let a = m.index();
            rows[a] = rows::join(rows[a], crate::sent::sent_row(cell));
        }
    }
}

// Rule 1: which message causes which.
pub fn causes_rows(t: &Tables) -> [u64; tables::MESSAGES]
    requires { TablesOk t.now }
    ensures { CausesRows t.now result }
{
    crate::by_cells::rows_of(&Causes, t.cells())
}
