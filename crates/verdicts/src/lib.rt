// What is found out about a protocol's tables: a plan, or the judgement of a mapping; and the plan itself.
// `TablesOk` is asked for in contracts: `Tables` itself stands for every value (see there).
#![tactic(auto)]

pub mod judgement;

ghost use Rattle.std.specs.Prelude.{◌≡◌, map, ◌<◌, ◌≤◌};
ghost use Rattle.tables.specs.Cells.{relations_of_tables, TablesOk};
ghost use Rattle.verdicts.specs.Verdicts.{PlanIs};
ghost use Rattle.rules.specs.Numbers.{as_message, as_network};
ghost use Rattle.verdicts.specs.Planning.{PlanOfRows};

use rules::{Message, Network};
use tables::Tables;

// A shown cycle: its messages are the first of the array, which is cleared past them. There is no heap to keep a list on.
#[derive(Clone, Copy)]
pub struct ShownCycle {
    pub length: usize,
    pub messages: [Message; tables::MESSAGES],
}

// A plan.
#[derive(Clone, Copy)]
pub enum PlanFound {
    // class 3: the least count, and each message's network
    Ranked {
        count: usize,
        networks: [Network; tables::MESSAGES],
    },
    // class 2
    Cyclic(ShownCycle),
}

// A judgement: the shown cycle, where the mapping is not fit, and the rows of waits.
#[derive(Clone, Copy)]
pub struct JudgementFound {
    pub cycle: Option<ShownCycle>,
    pub waits: [u64; tables::MESSAGES],
}

// The heights that were written, as networks.
fn networks_of(heights: [u8; tables::MESSAGES]) -> [Network; tables::MESSAGES]
    ensures { result ≡ map as_network heights }
{
    heights.map(Network)
}

// The numbers of a cycle that were written, as messages.
pub(crate) fn messages_of(numbers: [u8; tables::MESSAGES]) -> [Message; tables::MESSAGES]
    ensures { result ≡ map as_message numbers }
{
    numbers.map(Message)
}

// The plan of the rows of waits. Heights are networks, and the numbers of a cycle are messages: each is written to bytes of its own.
fn plan_of_rows(waits: &[u64; tables::MESSAGES], n: usize) -> PlanFound
    requires { (0 < n) × (n ≤ 64) }
    ensures { PlanOfRows waits.now n result }
{
    let mut sets = [0u64; tables::MESSAGES];
    let mut heights = [0u8; tables::MESSAGES];
    let found = walks::heights::heights(waits, n, &mut sets, &mut heights);
    if let Some(count) = found {
        return PlanFound::Ranked {
            count: count,
            networks: networks_of(heights),
        };
    }
    // where there are no heights there is a cycle
    let mut numbers = [0u8; tables::MESSAGES];
    let length = walks::cycles::cycle(waits, waits, n, &mut sets, &mut numbers).unwrap();
    PlanFound::Cyclic(ShownCycle {
        length: length,
        messages: messages_of(numbers),
    })
}

// The plan of the tables.
pub fn plan_of(t: &Tables) -> PlanFound
    requires { TablesOk t.now × (0 < t.now.message_count) }
    ensures { PlanIs (relations_of_tables t.now) result }
{
    let n = t.message_count;
    let mut causes = table_rows::causes::causes_rows(t);
    let stalls = table_rows::stalls::stalls_rows(t);
    let waits = waits::waits_of(&mut causes, &stalls, n);
    plan_of_rows(&waits, n)
}
