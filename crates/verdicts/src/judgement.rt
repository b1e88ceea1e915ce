// From a protocol's tables and a mapping to a judgement.
// `TablesOk` is asked for in contracts: `Tables` itself stands for every value (see there).
ghost use Rattle.std.specs.Prelude.{◌<◌, ◌≤◌};
ghost use Rattle.tables.specs.Cells.{relations_of_tables, TablesOk};
ghost use Rattle.walks.specs.Walks.{Within};
ghost use Rattle.verdicts.specs.Verdicts.{mapping_of_lem, JudgementIs};
ghost use Rattle.verdicts.specs.judgement.Judging.{JudgementOfRows};

use crate::{JudgementFound, ShownCycle};
use rules::Network;
use tables::Tables;

// The judgement that the rows give: the shown cycle begins with a waits step. The rows of waits are handed over: the judgement keeps them.
fn judge_of_rows(
    waits: [u64; tables::MESSAGES],
    steps: &[u64; tables::MESSAGES],
    n: usize,
) -> JudgementFound
    requires { (n ≤ 64) × Within n waits steps.now }
    ensures { JudgementOfRows waits steps.now n result }
{
    let mut sets = [0u64; tables::MESSAGES];
    let mut numbers = [0u8; tables::MESSAGES];
    let found = walks::cycles::cycle(&waits, steps, n, &mut sets, &mut numbers);
    let messages = crate::messages_of(numbers);
    JudgementFound {
        cycle: found.map(|length| ShownCycle {
            length: length,
            messages: messages,
        }),
        waits: waits,
    }
}

// The judgement of a mapping, by rule 6.
pub fn judge_of(t: &Tables, networks: &[Network; tables::MESSAGES]) -> JudgementFound
    requires { TablesOk t.now × (0 < t.now.message_count) }
    ensures { JudgementIs (relations_of_tables t.now) (mapping_of_lem networks.now) result }
{
    let n = t.message_count;
    let mut causes = table_rows::causes::causes_rows(t);
    let stalls = table_rows::stalls::stalls_rows(t);
    let waits = waits::waits_of(&mut causes, &stalls, n);
    let steps = waits::steps::steps_of(&waits, &stalls, networks, n);
    judge_of_rows(waits, &steps, n)
}
