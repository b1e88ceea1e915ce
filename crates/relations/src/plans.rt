// The plan of bare relations: of the rows of waits, and of two tables that pass the checks.
// Rows and their number n go side by side: a caller lends tables as long as its form asks, of which n rows are used (as in `walks`).
ghost use Rattle.std.specs.Prelude.{◌≤◌, ◌≡◌, ◌≢◌, Some, Ok, length};
ghost use Rattle.rows.specs.Rows.{Stray};
ghost use Rattle.rows.specs.Gather.{Tidy};
ghost use Rattle.relations.specs.answer.Told.{answer_of};
ghost use Rattle.relations.specs.row_bytes.RowBytes.{rows_of_bytes};
ghost use Rattle.relations.specs.plans.Plans.{RelationsPlanned, WaitsPlan};

use crate::answer::RelationsPlan;
use crate::row_bytes::Table;

// The plan of the rows of waits: a network for each message, or the shown cycle. The joins are told as they are given. The walks keep their
// sets in the rows lent.
fn plan_rows(
    waits: &[u64],
    n: usize,
    joins: usize,
    sets: &mut [u64],
    out: &mut [u8],
) -> RelationsPlan
    requires { (1 ≤ n) × (n ≤ 64) × (n ≤ length waits.now) × (n ≤ length sets.old) × (n ≤ length out.old) × Tidy n waits.now }
    ensures plan { WaitsPlan n waits.now joins out.old out.new (answer_of (Ok result)) }
    ensures counted { result.networks ≢ Some 0 }
{
    let pairs = waits::pairs(waits, n);
    let networks = walks::heights::heights(waits, n, sets, out);
    let length = match networks {
        Some(_) => n,
        // where there are no heights there is a cycle
        None => walks::cycles::cycle(waits, waits, n, sets, out).unwrap(),
    };
    RelationsPlan {
        length,
        networks,
        pairs,
        joins,
    }
}

// The plan of two tables that pass the checks. It is worked out in three tables of MOST rows: the causes are closed where they are loaded, and
// where the stalls stood the walks keep their sets.
pub(crate) fn plan_tables<const SIZE: usize, const MOST: usize>(
    causes: &Table<SIZE>,
    stalls: &Table<SIZE>,
    out: &mut [u8],
) -> RelationsPlan
    requires one_count { stalls.now.n ≡ causes.now.n }
    requires n_in_bounds { (causes.now.n ≤ MOST) × (MOST ≤ 64) × (causes.now.n ≤ length out.old) }
    requires not_stray { (¬ Stray causes.now.n (rows_of_bytes SIZE causes.now.n causes.now.bytes.now)) × (¬ Stray causes.now.n (rows_of_bytes SIZE causes.now.n stalls.now.bytes.now)) }
    ensures plan { RelationsPlanned causes.now.n (rows_of_bytes SIZE causes.now.n causes.now.bytes.now) (rows_of_bytes SIZE causes.now.n stalls.now.bytes.now) out.old out.new (answer_of (Ok result)) }
    ensures counted { result.networks ≢ Some 0 }
{
    let n = causes.n;
    let mut c: [u64; MOST] = [0; MOST];
    let mut s: [u64; MOST] = [0; MOST];
    let mut w: [u64; MOST] = [0; MOST];
    causes.load(&mut c);
    stalls.load(&mut s);
    let joins = waits::waits(&mut c, &s, n, &mut w);
    plan_rows(&w, n, joins, &mut s, out)
}
