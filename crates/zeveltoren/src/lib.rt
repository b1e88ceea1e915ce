// Every call that a host makes, and nothing else: each answers as the library does, its numbers packed into one.
// The crate zeveltoren_c exports them to C.
#![tactic(auto)]

ghost use Rattle.std.specs.Prelude.{◌≡◌};
ghost use Rattle.zeveltoren.specs.Packed.{PackedRelations, checked, PackedCheck, PackedPlan, PackedJudgement};

use answers::Answer;
use answers::unlisted::{Paper, Unlisted};
use relations::answer::RelationsAnswer;

// The relations call.
pub fn vn_relations(n: u64, causes: &[u8], stalls: &[u8], out: &mut [u8]) -> u64
    ensures { PackedRelations 4 32 n causes.now stalls.now out.old out.new result }
{
    let told = relations::relations(n as usize, causes, stalls, out);
    relations::answer::packed(RelationsAnswer::from(told))
}

// The relations call in its second form: rows of 8 bytes, and up to 64 messages. A name of its own, for C.
pub fn vn_relations64(n: u64, causes: &[u8], stalls: &[u8], out: &mut [u8]) -> u64
    ensures { PackedRelations 8 64 n causes.now stalls.now out.old out.new result }
{
    let told = relations::relations64(n as usize, causes, stalls, out);
    relations::answer::packed(RelationsAnswer::from(told))
}

// The answer of a reading: how the text is refused; every number is 0 where it is accepted.
fn checked(text: &[u8]) -> Answer
    ensures { result ≡ checked text.now }
{
    match protocol::read_protocol(text) {
        Ok(_) => Answer::of(Ok(0)),
        Err(why) => Answer::of(Err(Unlisted::Refused(why, Paper::Protocol))),
    }
}

// Whether a protocol text is accepted, and else the refusal's number and line.
pub fn vn_check_protocol(text: &[u8]) -> u64
    ensures { PackedCheck text.now result }
{
    answers::packed(checked(text))
}

// The plan of a protocol text.
pub fn vn_plan_text(text: &[u8], out: &mut [u8]) -> u64
    ensures { PackedPlan text.now out.old out.new result }
{
    let planned = plan::plan(text, out);
    answers::packed(Answer::of(planned))
}

// The judgement of a mapping text for a protocol text.
pub fn vn_judge_texts(protocol: &[u8], mapping: &[u8], out: &mut [u8]) -> u64
    ensures { PackedJudgement protocol.now mapping.now out.old out.new result }
{
    let judged = judge::judge(protocol, mapping, out);
    answers::packed(Answer::of(judged))
}
