// The judging program: protocol.tsv and mapping.tsv in the current folder, the listing or the refusal on standard output.
// A file that can't be opened counts as an empty text.
#![tactic(auto)]

use files::Text;
use std::io;

fn main(rt: HostRuntime) -> io::Result<()> {
    let protocol = Text::of_file(&rt, b"protocol.tsv");
    let mapping = Text::of_file(&rt, b"mapping.tsv");
    let printed = judge::program::print_judgement(protocol.as_slice(), mapping.as_slice());
    rt.write_all(printed.as_slice())
}
