// What the judging program has to say of two texts: the listing, or the line of a refusal. See plan/src/program.rt for why there are two.
ghost use Rattle.std.specs.Prelude.{◌≤◌, length, replicate};
ghost use Rattle.judge.specs.program.Printed.{JudgePrinted};

use answers::{Answer, PrintedBytes};

// What the judging program prints, at the front of out. There is room for the longest answer within the limits.
fn put_judgement(protocol: &[u8], mapping: &[u8], out: &mut [u8]) -> usize
    requires { 4096 ≤ length out.old }
    ensures { JudgePrinted protocol.now mapping.now out.old out.new result }
{
    match crate::judge(protocol, mapping, out) {
        Ok(length) => length,
        Err(unlisted) => {
            let a = Answer::of(Err(unlisted));
            answers::refused_text::put_refused(out, a.refusal, a.paper)
        }
    }
}

// What the judging program prints. It asks nothing: the room is its own.
pub fn print_judgement(protocol: &[u8], mapping: &[u8]) -> PrintedBytes
    ensures { JudgePrinted protocol.now mapping.now (replicate 4096 0) result.bytes result.length }
{
    let mut bytes = [0u8; answers::PRINTED];
    let n = put_judgement(protocol, mapping, &mut bytes);
    PrintedBytes { bytes, length: n }
}
