// The calls of the crate zeveltoren as a C host links them: the same names, contracts and answers, and nothing else.
// include/zeveltoren.h declares them. A slice is a pointer, and then a length.
#![tactic(auto)]

ghost use Rattle.zeveltoren.specs.Packed.{PackedRelations, PackedCheck, PackedPlan, PackedJudgement};

// The relations call.
#[unsafe(no_mangle)]
pub extern "C" fn vn_relations(n: u64, causes: &[u8], stalls: &[u8], out: &mut [u8]) -> u64
    ensures { PackedRelations 4 32 n causes.now stalls.now out.old out.new result }
{
    zeveltoren::vn_relations(n, causes, stalls, out)
}

// The relations call in its second form: rows of 8 bytes, and up to 64 messages.
#[unsafe(no_mangle)]
pub extern "C" fn vn_relations64(n: u64, causes: &[u8], stalls: &[u8], out: &mut [u8]) -> u64
    ensures { PackedRelations 8 64 n causes.now stalls.now out.old out.new result }
{
    zeveltoren::vn_relations64(n, causes, stalls, out)
}

// Whether a protocol text is accepted, and else the refusal's number and line.
#[unsafe(no_mangle)]
pub extern "C" fn vn_check_protocol(text: &[u8]) -> u64
    ensures { PackedCheck text.now result }
{
    zeveltoren::vn_check_protocol(text)
}

// The plan of a protocol text.
#[unsafe(no_mangle)]
pub extern "C" fn vn_plan_text(text: &[u8], out: &mut [u8]) -> u64
    ensures { PackedPlan text.now out.old out.new result }
{
    zeveltoren::vn_plan_text(text, out)
}

// The judgement of a mapping text for a protocol text.
#[unsafe(no_mangle)]
pub extern "C" fn vn_judge_texts(protocol: &[u8], mapping: &[u8], out: &mut [u8]) -> u64
    ensures { PackedJudgement protocol.now mapping.now out.old out.new result }
{
    zeveltoren::vn_judge_texts(protocol, mapping, out)
}
