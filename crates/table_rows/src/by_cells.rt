// A rule that is told cell by cell, as rows over all the cells.
ghost use Rattle.std.specs.Prelude.{ℕ, map};
ghost use Rattle.rules.specs.Lists.{Some};
ghost use Rattle.rules.specs.Rules.{Cell};
ghost use Rattle.tables.specs.Cells.{as_rule_cell, CellOk, Each};
ghost use Rattle.tables.specs.Relations.{Adds, RowsOf};

use rows::WIDTH;

// What a rule says of one cell: the pairs that the cell alone gives, which are added to rows.
pub(crate) trait CellRule {
    ghost gives: { Self → Cell → ℕ → ℕ → Type 0 };

    fn add(&self, cell: &tables::Cell, rows: &mut [u64; WIDTH])
        requires { CellOk 64 8 64 cell.now }
        ensures { Adds (gives self.now (as_rule_cell cell.now)) rows.old rows.new };
}

// The pairs that some cell gives.
pub(crate) fn rows_of<R: CellRule>(rule: &R, cells: &[tables::Cell]) -> [u64; WIDTH]
    requires { Each (CellOk 64 8 64) cells.now }
    ensures { RowsOf (λ a b. Some (λ c. R.gives rule.now c a b) (map as_rule_cell cells.now)) result }
{
    let mut rows = [0; WIDTH];
    for cell in cells {
        rule.add(cell, &mut rows);
    }
    rows
}
