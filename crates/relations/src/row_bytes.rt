// Rows as the bytes of a table: loaded, and searched for stray bits. A row of a table has SIZE bytes: 4 in the first form of the call, 8 in the
// second. A row that is loaded has 64 bits in either.
ghost use Rattle.std.specs.Prelude.{◌≡◌, true, ◌↔◌, ◌*◌, ◌<◌, ◌≤◌, length};
ghost use Rattle.rows.specs.Rows.{Stray};
ghost use Rattle.relations.specs.row_bytes.RowBytes.{RowSize, rows_of_bytes, row_at, Loaded};

// How many bytes a row has in a table: in the first form, and in the second.
pub(crate) const ROW_BYTES: usize = 4;

pub(crate) const WIDE_ROW_BYTES: usize = 8;

// A table of n rows.
#[derive(Clone, Copy)]
pub(crate) struct Table<'a, const SIZE: usize> {
    bytes: &'a [u8],
    pub(crate) n: usize,
    ghost row_size: { ∥ RowSize SIZE ∥₁ },
    ghost whole: { (1 ≤ n) × (n ≤ 64) × (length bytes.now ≡ SIZE * n) },
}

impl<'a, const SIZE: usize> Table<'a, SIZE> {
    // The table that these bytes are.
    pub(crate) fn of(bytes: &'a [u8], n: usize) -> Table<'a, SIZE>
        requires { RowSize SIZE × (1 ≤ n) × (n ≤ 64) × (length bytes.now ≡ SIZE * n) }
        ensures { (result.bytes.now ≡ bytes.now) × (result.n ≡ n) }
    {
        Table { bytes, n }
    }

    // Row i, lowest byte first.
    fn row(&self, i: usize) -> u64
        requires { i < self.now.n }
        ensures { result ≡ row_at SIZE self.now.bytes.now i }
    {
        let b = self.bytes;
        let k = SIZE * i;
        if SIZE == ROW_BYTES {
            return u32::from_le_bytes([b[k], b[k + 1], b[k + 2], b[k + 3]]) as u64;
        }
        u64::from_le_bytes([
            b[k],
            b[k + 1],
            b[k + 2],
            b[k + 3],
            b[k + 4],
            b[k + 5],
            b[k + 6],
            b[k + 7],
        ])
    }

    // The rows, laid in the first rows lent.
    pub(crate) fn load(&self, rows: &mut [u64])
        requires { self.now.n ≤ length rows.old }
        ensures { Loaded SIZE self.now.n self.now.bytes.now rows.old rows.new }
    {
        for i in 0..self.n {
            rows[i] = self.row(i);
        }
    }

    // Whether a row has a bit at or above n: the rows together are more than their bits below n.
    pub(crate) fn stray(&self) -> bool
        ensures { (result ≡ true) ↔ Stray self.now.n (rows_of_bytes SIZE self.now.n self.now.bytes.now) }
    {
        let mut all: u64 = 0;
        for i in 0..self.n {
            all = rows::join(all, self.row(i));
        }
        rows::meet(all, rows::all_below(self.n)) != all
    }
}
