// The planning call: a protocol text in, a listing out.
// `TablesOk` is asked for in contracts: `Tables` itself stands for every value (see there).
#![tactic(auto)]

pub mod program;

ghost use Rattle.std.specs.Prelude.{◌<◌};
ghost use Rattle.tables.specs.Cells.{TablesOk};
ghost use Rattle.answers.specs.unlisted.Unlisted.{listed_of, answer_of};
ghost use Rattle.plan.specs.Call.{PlanWritten, PlanCall};

use answers::unlisted::{NoRoom, Paper, Unlisted};
use tables::Tables;
use verdicts::PlanFound;

// The plan of a protocol's tables, written to the output if there is room for it.
fn plan_tables(t: &Tables, out: &mut [u8]) -> Result<usize, NoRoom>
    requires { TablesOk t.now × (0 < t.now.message_count) }
    ensures { PlanWritten t.now out.old out.new (listed_of result) }
{
    match verdicts::plan_of(t) {
        PlanFound::Ranked { count, networks } => {
            let mapping = &networks[..t.message_count];
            plan_listing::maps::map_listing(t.messages(), mapping, count, out)
        }
        PlanFound::Cyclic(cycle) => {
            let shown = &cycle.messages[..cycle.length];
            plan_listing::cycle::cycle_listing(&t.messages, shown, out)
        }
    }
}

// The plan of a protocol text.
pub fn plan(text: &[u8], out: &mut [u8]) -> Result<usize, Unlisted>
    ensures { PlanCall text.now out.old out.new (answer_of result) }
{
    match protocol::read_protocol(text) {
        Ok(t) => Ok(plan_tables(&t, out)?),
        Err(why) => Err(Unlisted::Refused(why, Paper::Protocol)),
    }
}
