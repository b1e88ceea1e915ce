// The checks of the relations call, in the paper's order.
ghost use Rattle.std.specs.Prelude.{◌≡◌, ◌≤◌};
ghost use Rattle.relations.specs.row_bytes.RowBytes.{RowSize};
ghost use Rattle.relations.specs.checks.CallChecks.{is_wrong_count, relations_refusal, Checked};

use crate::answer::CallRefused;
use crate::row_bytes::Table;

// Refusal 17: the count, or a table of another length than it asks. There may be MOST messages. What is asked of SIZE and MOST stands in `requires`,
// because no value holds a const parameter, whose type could say it.
fn wrong_count<const SIZE: usize, const MOST: usize>(n: usize, causes: &[u8], stalls: &[u8]) -> bool
    requires { RowSize SIZE × (MOST ≤ 64) }
    ensures { result ≡ is_wrong_count SIZE MOST n causes.now stalls.now }
{
    n == 0 || MOST < n || causes.len() != SIZE * n || stalls.len() != SIZE * n
}

// The first check that is given, if one is.
pub(crate) fn first_check<const SIZE: usize, const MOST: usize>(
    n: usize,
    causes: &[u8],
    stalls: &[u8],
    room: usize,
) -> Result<(), CallRefused>
    requires { RowSize SIZE × (MOST ≤ 64) }
    ensures { Checked (relations_refusal SIZE MOST n causes.now stalls.now room).number n result }
{
    if wrong_count::<SIZE, MOST>(n, causes, stalls) {
        return Err(CallRefused::Count);
    }
    let causes: Table<SIZE> = Table::of(causes, n);
    let stalls: Table<SIZE> = Table::of(stalls, n);
    if causes.stray() || stalls.stray() {
        return Err(CallRefused::Stray);
    }
    if room < n {
        return Err(CallRefused::Room { needed: n });
    }
    Ok(())
}
