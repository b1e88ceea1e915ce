// Rows gathered by sets: one relation after another.
ghost use Rattle.std.specs.Prelude.{ℕ, ◌<◌, ◌≤◌, length};
ghost use Rattle.rows.specs.Rows.{Bit};
ghost use Rattle.rows.specs.Gather.{Tidy, Spread, Gathered};

// Each row whose place is in the set takes in the row. The next place is found by trailing zeros.
// The loop counts no index: it goes over the bits of a word. An iterator of those would be a type with laws of its own, longer than these loops.
fn spread(row: u64, set: u64, rows: &mut [u64])
    requires { (b : ℕ) → Bit set b → b < length rows.old }
    ensures { Spread row set rows.old rows.new }
{
    let mut left: u64 = set;
    while left != 0 {
        let b = crate::lowest(left);
        rows[b] = crate::join(rows[b], row);
        left = crate::without_lowest(left);
    }
}

// Row b becomes the union of the rows of all a whose set has b.
pub fn gather(given: &[u64], sets: &[u64], n: usize, rows: &mut [u64])
    requires { (n ≤ 64) × (n ≤ length given.now) × (n ≤ length sets.now) × (n ≤ length rows.old) × Tidy n sets.now }
    ensures { Gathered n given.now sets.now rows.old rows.new }
{
    crate::clear(rows, n);
    for a in 0..n {
        spread(given[a], sets[a], rows);
    }
}
