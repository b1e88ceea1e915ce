// The rows of waits by rule 4, and the number of waits pairs.
// Rows and their number n go side by side: a caller lends tables as long as its form asks, of which n rows are used (as in `walks`).
#![tactic(auto)]

pub mod steps;

ghost use Rattle.std.specs.Prelude.{◌≡◌, ◌≤◌, length};
ghost use Rattle.rows.specs.Closure.{Closure};
ghost use Rattle.rows.specs.Joins.{joins};
ghost use Rattle.rows.specs.Gather.{Tidy};
ghost use Rattle.waits.specs.Waiting.{WaitsRows, WaitsOnly, RowPairs};

use rows::WIDTH;

// The rows of waits, by rule 4. The rows of causes are closed on the way; gives the number of row joins that this takes.
pub fn waits(causes: &mut [u64], stalls: &[u64], n: usize, waits: &mut [u64]) -> usize
    requires { (n ≤ 64) × (n ≤ length causes.old) × (n ≤ length stalls.now) × (n ≤ length waits.old) × Tidy n causes.old × Tidy n stalls.now }
    ensures closure { Closure n causes.old causes.new }
    ensures waits_rows { WaitsRows n causes.old stalls.now waits.old waits.new }
    ensures value { result ≡ joins n causes.old }
{
    let joins = rows::closure::closure(causes, n);
    rows::gather::gather(causes, stalls, n, waits);
    joins
}

// The number of pairs of the first n rows: ones counted over each row.
pub fn pairs(rows: &[u64], n: usize) -> usize
    requires { (n ≤ 64) × (n ≤ length rows.now) × Tidy n rows.now }
    ensures { RowPairs n rows.now result }
{
    let mut sum: usize = 0;
    for row in &rows[..n] {
        sum += rows::ones(*row) as usize;
    }
    sum
}

// The rows of waits of n messages, by rule 4. The other rows are 0. The rows of causes are closed on the way, where they stand.
// Beside `waits`, which the relations call lends a table as long as its form asks: here the table is made, and two callers need not clear one.
pub fn waits_of(causes: &mut [u64], stalls: &[u64], n: usize) -> [u64; WIDTH]
    requires { (n ≤ 64) × (n ≤ length causes.old) × (n ≤ length stalls.now) × Tidy n causes.old × Tidy n stalls.now }
    ensures closure { Closure n causes.old causes.new }
    ensures waits_only { WaitsOnly 64 n causes.old stalls.now result }
{
    let mut waits = [0u64; WIDTH];
    crate::waits(causes, stalls, n, &mut waits);
    waits
}
