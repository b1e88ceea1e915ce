// Real protocols from data/, each with its plan and some judged mappings. The file data/list has a line for each answer:
// a protocol's file, and behind a tab a mapping's file where it is to be judged. For each line the program prints the line
// itself, then what vn_plan or vn_judge would print.
//
// The files data/ and stdout are made from the folder examples/ by tools/examples.
#![tactic(auto)]

use files::Text;
use std::io;
use std::rt::Files;

// The longest list: what stands behind it is not read.
const LIST: usize = 8192;

fn planned(rt: &(impl Files + Print), file: &[u8]) -> io::Result<()> {
    let protocol = Text::of_file(rt, file);
    let printed = plan::program::print_plan(protocol.as_slice());
    rt.write_all(printed.as_slice())
}

fn judged(rt: &(impl Files + Print), file: &[u8], other: &[u8]) -> io::Result<()> {
    let protocol = Text::of_file(rt, file);
    let mapping = Text::of_file(rt, other);
    let printed = judge::program::print_judgement(protocol.as_slice(), mapping.as_slice());
    rt.write_all(printed.as_slice())
}

// The answer of one line of the list.
fn answer(rt: &(impl Files + Print), line: &[u8]) -> io::Result<()> {
    rt.write_all(line)?;
    rt.write_all(b"\n")?;
    match line.iter().position(|byte| *byte == b'\t') {
        Some(tab) => judged(rt, &line[..tab], &line[tab + 1..]),
        None => planned(rt, line),
    }
}

// The answers of all lines.
fn answers(rt: &(impl Files + Print), lines: &[u8]) -> io::Result<()> {
    for line in lines.split_inclusive(|byte| *byte == b'\n') {
        answer(rt, line.strip_suffix(b"\n").unwrap_or(line))?;
    }
    Ok(())
}

// An array and a count, and no Text: a Text has more room than LIST, and would answer more of a longer list.
fn main(rt: HostRuntime) -> io::Result<()> {
    let mut list = [0u8; LIST];
    let n = files::read_file(&rt, b"list", &mut list);
    answers(&rt, &list[..n])
}
