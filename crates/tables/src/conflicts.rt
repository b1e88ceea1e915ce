// Refusal 11, CONFLICT: whether a cell clashes with an earlier one.
ghost use Rattle.std.specs.Prelude.{◌≡◌};
ghost use Rattle.tables.specs.Clash.{clashes, any_clash_lem};

use crate::{Cell, Outcome};

// Whether d and c stand at one place and trigger, and one of them stalls.
fn clash(d: &Cell, c: &Cell) -> bool
    ensures { result ≡ clashes d.now c.now }
{
    d.state == c.state
        && d.trigger == c.trigger
        && (d.outcome == Outcome::Stall || c.outcome == Outcome::Stall)
}

// Whether one of the cells clashes with c.
pub fn any_clash(cells: &[Cell], c: &Cell) -> bool
    ensures { result ≡ any_clash_lem c.now cells.now }
{
    cells.iter().any(|d| clash(d, c))
}
