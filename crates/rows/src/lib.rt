// One row of bits, and rows cleared. Rows know only bit places: what a place stands for is for the caller to say.
// A table is lent whole, with n beside it, and not its first n rows as a slice: the contracts tell of the rows from n on too (KeptFrom).
#![tactic(auto)]

pub mod closure;
pub mod gather;

ghost use Rattle.std.specs.Prelude.{◌≡◌, true, ◌↔◌, ◌<◌, ◌≤◌, length};
ghost use Rattle.rows.specs.Rows.{Bit, AllBits};
ghost use Rattle.rows.specs.Row.{With, WithoutLowest, Join, Meet, AllBelow, Lowest, Ones};
ghost use Rattle.rows.specs.Closure.{Cleared};

// How many bits a row has.
pub const WIDTH: usize = 64;

// Whether the row has bit j.
pub fn has(row: u64, j: usize) -> bool
    requires { j < 64 }
    ensures { (result ≡ true) ↔ Bit row j }
{
    (row >> j) % 2 == 1
}

// The row with bit j set.
pub fn with_bit(row: u64, j: usize) -> u64
    requires { j < 64 }
    ensures { With row j result }
{
    row | 1 << j
}

// The row without its lowest set bit, whose place need not be known for it.
pub fn without_lowest(row: u64) -> u64
    requires { 0 < row }
    ensures { WithoutLowest 64 row result }
{
    row & (row - 1)
}

// The bits of either row.
pub fn join(a: u64, b: u64) -> u64
    ensures { Join a b result }
{
    a | b
}

// The bits that both rows have.
pub fn meet(a: u64, b: u64) -> u64
    ensures { Meet a b result }
{
    a & b
}

// The row with every bit below n.
pub fn all_below(n: usize) -> u64
    requires { (1 ≤ n) × (n ≤ 64) }
    ensures { AllBelow n result }
{
    0xffff_ffff_ffff_ffff >> (WIDTH - n)
}

// The place of the lowest set bit: its trailing zeros.
pub fn lowest(row: u64) -> usize
    requires { 0 < row }
    ensures { Lowest 64 row result }
{
    u64::trailing_zeros(row) as usize
}

// The bits of the first n rows, together.
pub fn all_bits(rows: &[u64], n: usize) -> u64
    requires { (n ≤ 64) × (n ≤ length rows.now) }
    ensures { AllBits n rows.now result }
{
    let mut all: u64 = 0;
    for row in &rows[..n] {
        all = join(all, *row);
    }
    all
}

// Clears the first n of the rows lent.
pub fn clear(rows: &mut [u64], n: usize)
    requires { (n ≤ 64) × (n ≤ length rows.old) }
    ensures { Cleared n rows.old rows.new }
{
    rows[..n].fill(0);
}

// How many bits are set.
pub fn ones(row: u64) -> u32
    ensures { Ones 64 row result }
{
    u64::count_ones(row)
}
