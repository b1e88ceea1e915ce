// The closure of a table of rows, in place, and how many row joins it takes.
ghost use Rattle.std.specs.Prelude.{◌≡◌, ◌<◌, ◌≤◌, length};
ghost use Rattle.rows.specs.Closure.{Joined, Counted, Round, Holders, HeldBits, Closure};
ghost use Rattle.rows.specs.Joins.{joins};

// What a turn of one row gives.
#[derive(Clone, Copy)]
struct Turn {
    // the row after it
    row: u64,
    // the joins counted so far, as wide as a row, so that both are worked out side by side
    count: u64,
}

// The turn of one row: if it has bit k it takes in the other, and a join is counted.
fn joined(row: u64, other: u64, k: usize, count: u64) -> Turn
    requires { (k < 64) × (count < 64) }
    ensures joined { Joined row other k result.row }
    ensures counted { Counted row k count result.count }
{
    let more = count + 1;
    if crate::has(row, k) {
        Turn {
            row: crate::join(row, other),
            count: more,
        }
    } else {
        Turn {
            row: row,
            count: count,
        }
    }
}

// Each of the first n rows takes in row k if it has bit k; gives how many did.
fn round(t: &mut [u64], n: usize, k: usize) -> u64
    requires { (n ≤ 64) × (k < n) × (n ≤ length t.old) }
    ensures round { Round t.old n k t.new }
    ensures holders { Holders t.old n k result }
{
    let own = t[k];
    let mut count: u64 = 0;
    for row in t[..n].iter_mut() {
        let turn = joined(*row, own, k, count);
        *row = turn.row;
        count = turn.count;
    }
    count
}

// The round of middle message k, where each bit of the rows is one of `held`: nothing is to do where no row holds k.
fn round_of(t: &mut [u64], n: usize, k: usize, held: u64) -> u64
    requires { (n ≤ 64) × (k < n) × (n ≤ length t.old) × HeldBits n t.old held }
    ensures round { Round t.old n k t.new }
    ensures holders { Holders t.old n k result }
{
    if !crate::has(held, k) {
        return 0;
    }
    round(t, n, k)
}

// The closure of the first n rows, in place: one or more steps. Gives the number of row joins. Closing adds no bit that no row had.
pub fn closure(t: &mut [u64], n: usize) -> usize
    requires { (n ≤ 64) × (n ≤ length t.old) }
    ensures closure { Closure n t.old t.new }
    ensures value { result ≡ joins n t.old }
{
    let held = crate::all_bits(t, n);
    let mut joins: usize = 0;
    for k in 0..n {
        joins += round_of(t, n, k, held) as usize;
    }
    joins
}
