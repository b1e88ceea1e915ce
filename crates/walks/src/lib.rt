// Walks in a relation that is given by rows of bits: bit j of row i says that a step leads from i to j. Heights and the shown
// cycle are found in the modules; one step back, which both take, is here. A set of numbers is a row too. Rows and their number n go side by side: a
// caller lends tables as long as its form asks.
#![tactic(auto)]

pub mod cycles;
pub mod heights;

ghost use Rattle.std.specs.Prelude.{◌≤◌, length};
ghost use Rattle.walks.specs.Sets.{Into};

// The numbers below n from which a step of s leads into the set.
pub(crate) fn into(s: &[u64], n: usize, set: u64) -> u64
    requires { (n ≤ 64) × (n ≤ length s.now) }
    ensures { Into s.now n set result }
{
    let mut r: u64 = 0;
    for (y, row) in s[..n].iter().enumerate() {
        if rows::meet(*row, set) != 0 {
            r = rows::with_bit(r, y);
        }
    }
    r
}
