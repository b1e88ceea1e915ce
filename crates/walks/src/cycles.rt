// The shortest closed walks of a relation that is given by rows of bits, and the shown cycle.
ghost use Rattle.std.specs.Prelude.{◌<◌, ◌≤◌, length};
ghost use Rattle.rows.specs.Closure.{KeptFrom, Cleared};
ghost use Rattle.walks.specs.Walks.{Within, Cycle};
ghost use Rattle.walks.specs.Sets.{Below, After, Shortest, StartIs, BestStart, Layers, Drawn};

// The rows w of first steps and s of all steps, and n, go side by side, as `cycle` is lent them, and no struct holds the three: some of the functions
// take s alone, as `into` does.

// Where the shortest closed walks begin.
#[derive(Clone, Copy)]
struct Start {
    // how many steps they have
    len: usize,
    // the least number that one of them begins with
    at: usize,
}

// The numbers below n to which a step of s leads from a number of the set.
// The loop counts no index: it goes over the bits of a word. An iterator of those would be a type with laws of its own, longer than these loops.
fn after(s: &[u64], n: usize, set: u64) -> u64
    requires le_n { (1 ≤ n) × (n ≤ 64) × (n ≤ length s.now) }
    requires below { Below n set }
    ensures { After s.now n set result }
{
    let mut r: u64 = 0;
    let mut left: u64 = set;
    while left != 0 {
        let z = rows::lowest(left);
        r = rows::join(r, s[z]);
        left = rows::without_lowest(left);
    }
    rows::meet(r, rows::all_below(n))
}

// The length of the shortest closed walks that begin at x with a step of w, if it is at most `most`.
fn shortest(w: &[u64], s: &[u64], n: usize, x: usize, most: usize) -> Option<usize>
    requires { (n ≤ 64) × (x < n) × (most ≤ n) × (n ≤ length w.now) × (n ≤ length s.now) }
    ensures { Shortest w.now s.now n x most result }
{
    if most == 0 {
        return None;
    }
    let mut set: u64 = rows::meet(w[x], rows::all_below(n));
    for k in 1..most {
        if rows::has(set, x) {
            return Some(k);
        }
        if set == 0 {
            return None;
        }
        set = after(s, n, set);
    }
    if rows::has(set, x) { Some(most) } else { None }
}

// Fills the table: at each place k below the length, the numbers from which the start is reached in exactly k steps of s.
fn layers(s: &[u64], n: usize, best: Start, sets: &mut [u64])
    requires { (n ≤ 64) × (best.at < n) × (best.len ≤ n) × (n ≤ length s.now) × (n ≤ length sets.old) }
    ensures layers { Layers s.now n best.at best.len sets.new }
    ensures kept_from { KeptFrom n sets.old sets.new }
{
    let mut set: u64 = rows::with_bit(0, best.at);
    sets[0] = set;
    for k in 1..best.len {
        set = crate::into(s, n, set);
        sets[k] = set;
    }
}

// Writes the shown cycle: the start, and at each further place the lowest number that follows and from which the start is reached in the steps
// that are left.
fn show(w: &[u64], s: &[u64], n: usize, best: Start, sets: &[u64], out: &mut [u8])
    requires n_bound { (n ≤ 64) × (n ≤ length w.now) × (n ≤ length s.now) × (n ≤ length sets.now) × (n ≤ length out.old) }
    requires within { Within n w.now s.now }
    requires best { StartIs w.now s.now n best }
    requires layers { Layers s.now n best.at best.len sets.now }
    ensures { Drawn w.now s.now n best.len out.old out.new }
{
    out[0] = best.at as u8;
    let mut row = w[best.at];
    for i in 1..best.len {
        let z = rows::lowest(rows::meet(row, sets[best.len - i]));
        out[i] = z as u8;
        row = s[z];
    }
}

// Writes the shown cycle.
fn draw(w: &[u64], s: &[u64], n: usize, best: Start, sets: &mut [u64], out: &mut [u8])
    requires n_bound { (n ≤ 64) × (n ≤ length w.now) × (n ≤ length s.now) × (n ≤ length sets.old) × (n ≤ length out.old) }
    requires within { Within n w.now s.now }
    requires best { StartIs w.now s.now n best }
    ensures drawn { Drawn w.now s.now n best.len out.old out.new }
    ensures cleared { Cleared n sets.old sets.new }
{
    layers(s, n, best, sets);
    show(w, s, n, best, sets, out);
    rows::clear(sets, n);
}

// The best start of all: at each start only walks shorter than the best so far are searched, so the least start is kept.
fn best_start(w: &[u64], s: &[u64], n: usize) -> Option<Start>
    requires { (n ≤ 64) × (n ≤ length w.now) × (n ≤ length s.now) }
    ensures { BestStart w.now s.now n result }
{
    let mut best: Option<Start> = None;
    let mut most: usize = n;
    for x in 0..n {
        if let Some(len) = shortest(w, s, n, x, most) {
            best = Some(Start { len: len, at: x });
            most = len - 1;
        }
    }
    best
}

// Writes the shown cycle of steps of s whose first step is one of w, and returns its length. Where there is none, nothing is written.
// The sets are kept in the rows lent, of which the first n are cleared at the end.
pub fn cycle(w: &[u64], s: &[u64], n: usize, sets: &mut [u64], out: &mut [u8]) -> Option<usize>
    requires n_bound { (n ≤ 64) × (n ≤ length w.now) × (n ≤ length s.now) × (n ≤ length sets.old) × (n ≤ length out.old) }
    requires within { Within n w.now s.now }
    ensures cycle { Cycle w.now s.now n out.old out.new result }
    ensures cleared { Cleared n sets.old sets.new }
{
    let Some(best) = best_start(w, s, n) else {
        rows::clear(sets, n);
        return None;
    };
    draw(w, s, n, best, sets, out);
    Some(best.len)
}
