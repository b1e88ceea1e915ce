// Refusal 13, NO_ENTRY: the first stalled message for whose state no taken state has a carrier.
// `TablesOk` is asked for in contracts: `Tables` itself stands for every value (see there).
ghost use Rattle.std.specs.Prelude.{◌≡◌, ◌↔◌, ◌<◌, true, get_or};
ghost use Rattle.rows.specs.Rows.{Bit};
ghost use Rattle.tables.specs.Cells.{as_rule_cell, TablesOk};
ghost use Rattle.tables.specs.Relations.{NoEntryFound};
ghost use Rattle.table_rows.specs.entries.AtCell.{CellNoEntry};

use tables::{Cell, Outcome, Tables, Trigger};

// Whether d stalls a message, and nobody is a staller of what is stalled in its state.
fn lacks_entry(stallers: &[u64; tables::STATES], d: &Cell) -> bool
    requires { d.now.state.0 < 64 }
    ensures { (result ≡ true) ↔ CellNoEntry (Bit (get_or stallers.now d.now.state.0 0)) (as_rule_cell d.now) }
{
    match (d.outcome, d.trigger) {
        (Outcome::Stall, Trigger::Message(_)) => stallers[d.state.index()] == 0,
        _ => false,
    }
}

// The place of the first cell of a stalled message that has no staller.
pub fn no_entry(t: &Tables) -> Option<usize>
    requires { TablesOk t.now }
    ensures { NoEntryFound t.now result }
{
    let stallers = crate::stallers::staller_rows(t);
    t.cells().iter().position(|d| lacks_entry(&stallers, d))
}
