// Heights in a relation that is given by rows of bits: bit j of row i says that a step leads from i to j. Rows, their number and the sets go side by
// side, as `heights` is lent them.
ghost use Rattle.std.specs.Prelude.{ℕ, ◌<◌, ◌≤◌, length, get_or};
ghost use Rattle.rows.specs.Rows.{Bit};
ghost use Rattle.rows.specs.Closure.{KeptFrom, Cleared};
ghost use Rattle.walks.specs.Walks.{Heights};
ghost use Rattle.walks.specs.Sets.{Below, Staying, Rounds, LastSet, Written};

// The numbers of the set, which are below n, from which a step leads into the set.
// The loop counts no index: it goes over the bits of a word. An iterator of those would be a type with laws of its own, longer than these loops.
fn staying(w: &[u64], n: usize, set: u64) -> u64
    requires { (n ≤ 64) × (n ≤ length w.now) × Below n set }
    ensures { Staying w.now set result }
{
    let mut r: u64 = 0;
    let mut left: u64 = set;
    while left != 0 {
        let y = rows::lowest(left);
        if rows::meet(w[y], set) != 0 {
            r = rows::with_bit(r, y);
        }
        left = rows::without_lowest(left);
    }
    r
}

// Keeps, round after round, the numbers from which a step leads to one that was kept: at round k a chain of k steps starts at each.
// Returns the round at which none is left. Where a round loses nobody, or somebody is left at round n, there is a cycle, and no such round.
fn rounds(w: &[u64], n: usize, sets: &mut [u64]) -> Option<usize>
    requires { (1 ≤ n) × (n ≤ 64) × (n ≤ length w.now) × (n ≤ length sets.old) }
    ensures rounds { Rounds w.now n sets.new result }
    ensures kept_from { KeptFrom n sets.old sets.new }
{
    let mut set: u64 = rows::all_below(n);
    for k in 0..n {
        sets[k] = set;
        let next = staying(w, n, set);
        if next == 0 {
            return Some(k + 1);
        }
        if next == set {
            return None;
        }
        set = next;
    }
    None
}

// The last of the first `count` sets, one after the other, that m is in.
fn last(sets: &[u64], count: usize, m: usize) -> usize
    requires { (m < 64) × (1 ≤ count) × (count ≤ 64) × (count ≤ length sets.now) × Bit (get_or sets.now 0 0) m }
    ensures { LastSet sets.now count m result }
{
    let mut h: usize = 0;
    for next in 1..count {
        if !rows::has(sets[next], m) {
            return h;
        }
        h = next;
    }
    h
}

// Writes the height of each number below n: in how many of the sets it stays.
fn write(sets: &[u64], count: usize, n: usize, out: &mut [u8])
    requires n_bound { (n ≤ 64) × (1 ≤ count) × (count ≤ 64) × (count ≤ length sets.now) × (n ≤ length out.old) }
    requires by_index { (m : ℕ) → m < n → Bit (get_or sets.now 0 0) m }
    ensures { Written sets.now count n out.old out.new }
{
    for m in 0..n {
        out[m] = last(sets, count, m) as u8;
    }
}

// Writes the height of each number below n, and returns how many numbers the longest chain has. Where there is a cycle there is no longest
// chain, and nothing is written.
// The sets are kept in the rows lent, so that a small host has no table more; the first n of these are cleared at the end.
pub fn heights(w: &[u64], n: usize, sets: &mut [u64], out: &mut [u8]) -> Option<usize>
    requires { (1 ≤ n) × (n ≤ 64) × (n ≤ length w.now) × (n ≤ length sets.old) × (n ≤ length out.old) }
    ensures heights { Heights w.now n out.old out.new result }
    ensures cleared { Cleared n sets.old sets.new }
{
    let count = rounds(w, n, sets);
    if let Some(k) = count {
        write(sets, k, n, out);
    }
    rows::clear(sets, n);
    count
}
