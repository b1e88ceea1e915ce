// The judging call: a protocol text and a mapping text in, a listing out.
// `TablesOk` is asked for in contracts: `Tables` itself stands for every value (see there).
#![tactic(auto)]

pub mod program;

ghost use Rattle.std.specs.Prelude.{◌<◌};
ghost use Rattle.tables.specs.Cells.{TablesOk};
ghost use Rattle.verdicts.specs.Verdicts.{mapping_of_lem};
ghost use Rattle.answers.specs.unlisted.Unlisted.{listed_of, answer_of};
ghost use Rattle.judge.specs.Call.{JudgementWritten, AfterProtocol, JudgeCall};

use answers::unlisted::{NoRoom, Paper, Unlisted};
use rules::Network;
use tables::Tables;

// The judgement of a mapping for a protocol's tables, written to the output if there is room for it. The networks are handed over by the reader.
fn judge_tables(
    t: &Tables,
    networks: [Network; tables::MESSAGES],
    out: &mut [u8],
) -> Result<usize, NoRoom>
    requires { TablesOk t.now × (0 < t.now.message_count) }
    ensures { JudgementWritten t.now (mapping_of_lem networks) out.old out.new (listed_of result) }
{
    let found = verdicts::judgement::judge_of(t, &networks);
    let Some(cycle) = found.cycle else {
        return judge_listing::fit::fit_listing(out);
    };
    let shown = &cycle.messages[..cycle.length];
    judge_listing::unfit_listing(&t.messages, shown, &found.waits, out)
}

// The judgement of a mapping text for a protocol's tables.
fn judge_mapping(t: &Tables, mapping: &[u8], out: &mut [u8]) -> Result<usize, Unlisted>
    requires { TablesOk t.now × (0 < t.now.message_count) }
    ensures { AfterProtocol t.now mapping.now out.old out.new (answer_of result) }
{
    match mapping::read_mapping(mapping, t.messages()) {
        Ok(networks) => Ok(judge_tables(t, networks, out)?),
        Err(why) => Err(Unlisted::Refused(why, Paper::Mapping)),
    }
}

// The judgement of a mapping text for a protocol text.
pub fn judge(protocol: &[u8], mapping: &[u8], out: &mut [u8]) -> Result<usize, Unlisted>
    ensures { JudgeCall protocol.now mapping.now out.old out.new (answer_of result) }
{
    match protocol::read_protocol(protocol) {
        Ok(t) => judge_mapping(&t, mapping, out),
        Err(why) => Err(Unlisted::Refused(why, Paper::Protocol)),
    }
}
