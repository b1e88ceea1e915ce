// Whole files for the programs, what an input still has, and the texts that a program is given.
#![tactic(auto)]

ghost use Rattle.std.specs.Prelude.{◌≡◌, ◌≤◌, length, take};

use std::io::Read;
use std::rt::Files;
use std::{fs, str};

// The next bytes, at the front of text; none where the input has ended or cannot be read.
fn read_some<R: Read>(input: &mut R, text: &mut [u8]) -> usize
    ensures in_bounds { result ≤ length text.new }
    ensures same_count { result ≡ length (take result text.new) }
{
    input.read(text).unwrap_or(0)
}

// The bytes that are left, at the front of text, as far as there is room for them. An input that cannot be read counts as the
// bytes that were read.
//
// A count and no slice: where a result borrows the lent text, no clause can name what the text is then (in_bounds, same_count).
pub fn read_full<R: Read>(input: &mut R, text: &mut [u8]) -> usize
    ensures in_bounds { result ≤ length text.new }
    ensures same_count { result ≡ length (take result text.new) }
{
    // A while: only a read tells how many bytes come, and std's read_exact tells no count where an input ends early.
    let mut done = 0;
    while done < text.len() {
        let n = read_some(input, &mut text[done..]);
        if n == 0 {
            break;
        }
        done += n;
    }
    done
}

// The file's bytes, at the front of text, as far as there is room for them. A file that cannot be opened counts as empty,
// and one that cannot be read counts as the bytes that were read. A name that is not UTF-8 is one of a file that cannot be
// opened.
pub fn read_file<F: Files>(files: &F, name: &[u8], text: &mut [u8]) -> usize
    ensures in_bounds { result ≤ length text.new }
    ensures same_count { result ≡ length (take result text.new) }
{
    let Ok(path) = str::from_utf8(name) else {
        return 0;
    };
    let Ok(mut file) = fs::open(files, path) else {
        return 0;
    };
    read_full(&mut file, text)
}

// One byte more than the largest text: so much room tells that a text is too big.
const ROOM: usize = papers::MOST_BYTES + 1;

// A text that a program is given, as far as there is room for it.
// An array and a count, and no Vec: memory is fixed in this repository.
#[derive(Drop)]
pub struct Text {
    pub bytes: [u8; ROOM],
    pub count: usize,
    pub ghost in_bounds: { count ≤ 49153 },
}

impl Text {
    // The bytes that are left of an input. Put into its caller, so that the room is copied once less.
    #[inline(always)]
    pub fn of_input<R: Read>(input: &mut R) -> Text
        ensures in_bounds { result.count ≤ length result.bytes }
        ensures same_count { result.count ≡ length (take result.count result.bytes) }
    {
        let mut text = Text {
            bytes: [0; ROOM],
            count: 0,
        };
        text.count = read_full(input, &mut text.bytes);
        text
    }

    // The bytes of a file; none where it cannot be opened. Put into its caller, as of_input is.
    #[inline(always)]
    pub fn of_file<F: Files>(files: &F, name: &[u8]) -> Text
        ensures in_bounds { result.count ≤ length result.bytes }
        ensures same_count { result.count ≡ length (take result.count result.bytes) }
    {
        let mut text = Text {
            bytes: [0; ROOM],
            count: 0,
        };
        text.count = read_file(files, name, &mut text.bytes);
        text
    }

    // The text itself.
    pub fn as_slice(&self) -> &[u8]
        ensures { result.now ≡ take self.now.count self.now.bytes }
    {
        &self.bytes[..self.count]
    }
}
