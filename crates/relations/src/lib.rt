// The relations call in two forms: the plan of bare relations, which two tables of bytes give.
#![tactic(auto)]

pub mod answer;
pub mod checks;
pub mod plans;
pub mod row_bytes;

ghost use Rattle.std.specs.Prelude.{◌≤◌, ◌≢◌, Some, IfOk};
ghost use Rattle.relations.specs.answer.Told.{answer_of};
ghost use Rattle.relations.specs.row_bytes.RowBytes.{RowSize};
ghost use Rattle.relations.specs.Call.{RelationsCall};

use crate::answer::{CallRefused, RelationsPlan};
use crate::row_bytes::{ROW_BYTES, Table, WIDE_ROW_BYTES};
use rows::WIDTH;

// How many messages the first form takes. The second takes as many as a row has bits.
const FEW: usize = 32;

// The relations call: the plan of n messages whose causes and stalls are given by two tables, written to the output. The count, the tables and the
// output are parameters of their own, because a host gives them so: the C interface.
pub fn relations(
    n: usize,
    causes: &[u8],
    stalls: &[u8],
    out: &mut [u8],
) -> Result<RelationsPlan, CallRefused>
    ensures call { RelationsCall 4 32 n causes.now stalls.now out.old out.new (answer_of result) }
    ensures counted { IfOk result (λ p. p.networks ≢ Some 0) }
{
    call::<ROW_BYTES, FEW>(n, causes, stalls, out)
}

// Its second form: rows of 8 bytes, and up to 64 messages.
pub fn relations64(
    n: usize,
    causes: &[u8],
    stalls: &[u8],
    out: &mut [u8],
) -> Result<RelationsPlan, CallRefused>
    ensures call { RelationsCall 8 64 n causes.now stalls.now out.old out.new (answer_of result) }
    ensures counted { IfOk result (λ p. p.networks ≢ Some 0) }
{
    call::<WIDE_ROW_BYTES, WIDTH>(n, causes, stalls, out)
}

// The call in either form: rows of SIZE bytes, and up to MOST messages.
fn call<const SIZE: usize, const MOST: usize>(
    n: usize,
    causes: &[u8],
    stalls: &[u8],
    out: &mut [u8],
) -> Result<RelationsPlan, CallRefused>
    requires { RowSize SIZE × (MOST ≤ 64) }
    ensures call { RelationsCall SIZE MOST n causes.now stalls.now out.old out.new (answer_of result) }
    ensures counted { IfOk result (λ p. p.networks ≢ Some 0) }
{
    checks::first_check::<SIZE, MOST>(n, causes, stalls, out.len())?;
    let causes: Table<SIZE> = Table::of(causes, n);
    let stalls: Table<SIZE> = Table::of(stalls, n);
    Ok(plans::plan_tables::<SIZE, MOST>(&causes, &stalls, out))
}
