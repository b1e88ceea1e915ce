// What the planning program has to say of a text: the listing, or the line of a refusal. The judging program has the same two functions over its own
// call: they share put_refused, and one for both would take the call, the paper and the promise as parameters.
ghost use Rattle.std.specs.Prelude.{◌≤◌, length, replicate};
ghost use Rattle.plan.specs.program.Printed.{PlanPrinted};

use answers::{Answer, PrintedBytes};

// What the planning program prints, at the front of out. There is room for the longest answer within the limits.
fn put_plan(text: &[u8], out: &mut [u8]) -> usize
    requires { 4096 ≤ length out.old }
    ensures { PlanPrinted text.now out.old out.new result }
{
    match crate::plan(text, out) {
        Ok(length) => length,
        Err(unlisted) => {
            let a = Answer::of(Err(unlisted));
            answers::refused_text::put_refused(out, a.refusal, a.paper)
        }
    }
}

// What the planning program prints. It asks nothing: the room is its own.
pub fn print_plan(text: &[u8]) -> PrintedBytes
    ensures { PlanPrinted text.now (replicate 4096 0) result.bytes result.length }
{
    let mut bytes = [0u8; answers::PRINTED];
    let n = put_plan(text, &mut bytes);
    PrintedBytes { bytes, length: n }
}
