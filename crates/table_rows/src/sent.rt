// What a cell sends, as a row of bits.
ghost use Rattle.std.specs.Prelude.{◌↔◌, ℕ};
ghost use Rattle.rules.specs.Lists.{◌∈◌};
ghost use Rattle.rows.specs.Rows.{Bit};
ghost use Rattle.tables.specs.Cells.{sent_numbers, CellOk};

use tables::Cell;

// The messages that a cell sends, as a row.
pub(crate) fn sent_row(d: &Cell) -> u64
    requires { CellOk 64 8 64 d.now }
    ensures { (b : ℕ) → Bit result b ↔ (b ∈ sent_numbers d.now) }
{
    let sent = &d.sent[..d.sent_count as usize];
    let mut row = 0u64;
    for m in sent {
        row = rows::with_bit(row, m.index());
    }
    row
}
