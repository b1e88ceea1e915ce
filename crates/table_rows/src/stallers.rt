// Rule 3: the states that are taken, and who carries to one of them.
// `TablesOk` is asked for in contracts: `Tables` itself stands for every value (see there).
ghost use Rattle.std.specs.Prelude.{◌≤◌, length};
ghost use Rattle.tables.specs.Cells.{TablesOk};
ghost use Rattle.tables.specs.Relations.{LeadingRows, TakenRows, StallerRows};
ghost use Rattle.table_rows.specs.stallers.AtCell.{OwnAdded};

use crate::by_cells::CellRule;
use rows::WIDTH;
use tables::{Cell, Outcome, Stability, StateRow, Tables};

// Rule 3 at one cell: its state, if that is transient, leads into the state that the cell goes to. The states are the declared ones.
#[derive(Clone, Copy)]
struct Leading<'a> {
    states: &'a [StateRow],
}

impl CellRule for Leading<'_> {
    ghost use Rattle.std.specs.Prelude.{get_or};
    ghost use Rattle.tables.specs.Tables.{no_state_row};
    ghost use Rattle.tables.specs.Cells.{is_transient};
    ghost use Rattle.table_rows.specs.stallers.AtCell.{CellLeads};

    ghost gives = { λ l c r s. CellLeads (is_transient (get_or l.states.now c.state no_state_row).stability) c r s };

    fn add(&self, cell: &Cell, rows: &mut [u64; WIDTH]) {
        let i = cell.state.index();
        if let Some(own) = self.states.get(i)
            && own.stability == Stability::Transient
            && let Outcome::Go(s) = cell.outcome
        {
            rows[i] = rows::with_bit(rows[i], s.index());
        }
    }
}

// Rule 3: which transient state has a `go` cell into which state.
fn leading_rows(t: &Tables) -> [u64; tables::STATES]
    requires { TablesOk t.now }
    ensures { LeadingRows t.now result }
{
    let leading = Leading { states: t.states() };
    crate::by_cells::rows_of(&leading, t.cells())
}

// Each of the first n rows with its own place. The count stands beside the rows, as at `rows::closure`, which closes the same rows.
fn add_own(rows: &mut [u64], n: usize)
    requires { (n ≤ 64) × (n ≤ length rows.old) }
    ensures { OwnAdded n rows.old rows.new }
{
    // over places and not over the rows: the place is what is stored
    for i in 0..n {
        rows[i] = rows::with_bit(rows[i], i);
    }
}

// Rule 3: which state is taken for which. The rows are closed where they stand.
fn taken_rows(t: &Tables) -> [u64; tables::STATES]
    requires { TablesOk t.now }
    ensures { TakenRows t.now result }
{
    let n = t.state_count;
    let mut rows = leading_rows(t);
    rows::closure::closure(&mut rows, n);
    add_own(&mut rows, n);
    rows
}

// Rule 3: which messages are the stallers of what is stalled in a state: the carriers of the states taken for it, joined.
pub(crate) fn staller_rows(t: &Tables) -> [u64; tables::STATES]
    requires { TablesOk t.now }
    ensures { StallerRows t.now result }
{
    let carriers = crate::carriers::carrier_rows(t);
    let taken = taken_rows(t);
    let mut rows = [0u64; tables::STATES];
    rows::gather::gather(&carriers, &taken, t.state_count, &mut rows);
    rows
}
