// The planning program: a protocol text on standard input, the listing or the refusal on standard output.
#![tactic(auto)]

use files::Text;
use std::io;

fn main(rt: HostRuntime) -> io::Result<()> {
    let protocol = Text::of_input(&mut rt.stdin());
    let printed = plan::program::print_plan(protocol.as_slice());
    rt.write_all(printed.as_slice())
}
