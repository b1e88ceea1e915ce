// The next line of a protocol text.
ghost use Rattle.std.specs.Prelude.{◌<◌, length};
ghost use Rattle.papers.specs.Lined.{Lined};
ghost use Rattle.lines.specs.next.Next.{Next};

use papers::records::Record;

// Where the line ends, and the line.
#[derive(Clone, Copy)]
pub struct NextLine<'a> {
    pub end: usize,
    pub line: Record<'a>,
}

// The line that starts at a place. Never put into its caller: in the loop of a section its searches take up to three times as long.
#[inline(never)]
pub fn next_line(text: &[u8], at: usize) -> NextLine
    requires { Lined text.now at × (at < length text.now) }
    ensures { Next text.now at result }
{
    let end = text::find(text, 10, at, text.len());
    NextLine {
        end,
        line: Record::of(&text[at..end]),
    }
}
