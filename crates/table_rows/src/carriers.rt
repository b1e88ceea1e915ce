// Rule 2: the rows of carriers, over all the cells.
// `TablesOk` is asked for in contracts: `Tables` itself stands for every value (see there).
ghost use Rattle.std.specs.Prelude.{◌↔◌, ℕ};
ghost use Rattle.rules.specs.Rules.{Carrier};
ghost use Rattle.rows.specs.Rows.{Bit};
ghost use Rattle.tables.specs.Cells.{as_rule_trigger, sent_numbers, CellOk, TablesOk};
ghost use Rattle.tables.specs.Relations.{CarrierRows};

use crate::by_cells::CellRule;
use rows::WIDTH;
use tables::{Cell, Outcome, Tables, Trigger};

// The carriers of a cell: its trigger if that is a message, else the messages it sends.
fn carrier_row(d: &Cell) -> u64
    requires { CellOk 64 8 64 d.now }
    ensures { (a : ℕ) → Bit result a ↔ Carrier (as_rule_trigger d.now.trigger) (sent_numbers d.now) a }
{
    match d.trigger {
        Trigger::Message(m) => rows::with_bit(0, m.index()),
        Trigger::Event(_) => crate::sent::sent_row(d),
    }
}

// Rule 2 at one cell: its carriers carry to the state that it enters.
struct Carriers;

impl CellRule for Carriers {
    ghost use Rattle.table_rows.specs.carriers.AtCell.{CellCarries};

    ghost gives = { λ _ c s a. CellCarries c s a };

    fn add(&self, cell: &Cell, rows: &mut [u64; WIDTH]) {
        if let Outcome::Go(s) = cell.outcome
            && s != cell.state
        {
            let i = s.index();
            rows[i] = rows::join(rows[i], carrier_row(cell));
        }
    }
}

// Rule 2: which messages carry to which state.
pub(crate) fn carrier_rows(t: &Tables) -> [u64; tables::STATES]
    requires { TablesOk t.now }
    ensures { CarrierRows t.now result }
{
    crate::by_cells::rows_of(&Carriers, t.cells())
}
