// Pseudo-random relations through both forms of the relations call; a line is printed for each.
//
// The file stdout beside src/ is made by the second program, host/random_relations.rs, which has the same generator,
// written again from this comment.
//
// The state is a number that starts as 1. A draw makes it state * 48271 mod 2147483647 and gives it.
//
// First come 2400 turns, from 0 on, with the first form, which has rows of 4 bytes and at most 32 messages. Then come 1280 turns,
// from 0 on again, with the second form, which has rows of 8 bytes and at most 64 messages; the state goes on.
// Where there are at most `most` messages, turn t goes so, with round = t / most:
//   1. n is t mod most + 1. Both tables start as 520 bytes 0, of which so many are given as n rows have.
//   2. A draw mod 4 is the shape.
//   3. Causes. Shape 1: each message causes itself, and nothing is drawn. Others: a draw mod (n * quarters / 4 + 1) is
//      the number of pairs, where quarters is that of round mod 8. For each pair one draw mod n and then another are
//      taken. In shape 0 the first causes the second, in shapes 2 and 3 the lower of the two causes the higher.
//   4. Stalls. Shape 1: each message stalls the one before it, and message 0 the last; then come a draw mod 4 pairs.
//      Others: the pairs are as many as before, with the quarters of round / 8 mod 8 in the first form, and of
//      (round + 3 * (round / 8)) mod 8 in the second. Of each pair, drawn as before, in shapes 0 and 1 the first stalls
//      the second, in shapes 2 and 3 the higher stalls the lower.
//   5. The output has n bytes, and a draw mod 4 more.
//   6. From round 64 on in the first form, and from round 16 on in the second, a draw mod 8 is the fault, else it is 0
//      and nothing is drawn:
//      1 n is given as 0; 2 n is given as n + most; 3 the causes have a byte less; 4 the stalls have a byte more;
//      5 the last row of causes also has bit n, if n is below most; 6 the output has n - 1 bytes; 7 is 5 and 6.
// The quarters 0 to 7 are 1, 2, 3, 4, 6, 10, 24 and 100.
//
// Each byte of the output is 255 before the call. The line has, parted by blanks: n as it was given, refusal number,
// length, networks, length needed, waits pairs, and the whole output, a character for each byte: the digits 0 to 9,
// a to z and A to Z for 0 to 61, a plus sign for 62, a minus sign for 63, a dot for 255, and a question mark for
// everything else. The line of an accepted call ends in a blank, the word `joins`, a blank and the number of row joins.
#![tactic(auto)]

ghost use Rattle.std.specs.Prelude.{◌*◌, ◌<◌, ◌≤◌};

use relations::answer::RelationsAnswer;
use std::io;

// ---- the generator

// The generator, with the state that it has come to.
#[derive(Drop)]
struct Draws {
    state: usize,
    ghost below_modulus: { state < 2147483647 },
}

impl Draws {
    fn new() -> Draws {
        Draws { state: 1 }
    }

    // The next draw, which is also the state after it.
    fn draw(&mut self) -> usize {
        self.state = self.state * 48271 % 2147483647;
        self.state
    }

    // The remainder of the next draw.
    fn below(&mut self, bound: usize) -> usize
        requires { 0 < bound }
        ensures { result < bound }
    {
        self.draw() % bound
    }
}

// ---- what differs between the forms

// A form of the call. The first has rows of 4 bytes and at most 32 messages, the second rows of 8 bytes and at most 64.
#[derive(Clone, Copy)]
enum Form {
    First,
    Second,
}

impl Form {
    // The most messages.
    fn most(self) -> usize
        ensures { result ≤ 64 }
    {
        match self {
            Form::First => 32,
            Form::Second => 64,
        }
    }

    // How many rounds there are. A round has a turn for each number of messages: 75 * 32 is 2400, and 20 * 64 is 1280.
    fn rounds(self) -> usize
        ensures { result ≤ 75 }
    {
        match self {
            Form::First => 75,
            Form::Second => 20,
        }
    }

    // The round from which on there are faults.
    fn first_faulty_round(self) -> usize {
        match self {
            Form::First => 64,
            Form::Second => 16,
        }
    }

    // How many bytes so many rows have.
    fn rows_length(self, rows: usize) -> usize
        requires { rows ≤ 64 }
        ensures { (rows ≤ result) × (result ≤ 8 * rows) }
    {
        match self {
            Form::First => 4 * rows,
            Form::Second => 8 * rows,
        }
    }

    // Which quarters the stalls have.
    fn stalls_density(self, round: usize) -> usize
        requires { round < 75 }
        ensures { result < 8 }
    {
        match self {
            Form::First => round / 8 % 8,
            Form::Second => (round + 3 * (round / 8)) % 8,
        }
    }

    // The call in this form.
    fn call(self, n: usize, causes: &[u8], stalls: &[u8], out: &mut [u8]) -> RelationsAnswer {
        let told = match self {
            Form::First => relations::relations(n, causes, stalls, out),
            Form::Second => relations::relations64(n, causes, stalls, out),
        };
        RelationsAnswer::from(told)
    }
}

// ---- the tables

// How a pair of numbers that were drawn is laid in a table.
#[derive(Clone, Copy)]
enum Way {
    AsDrawn,
    Rising,
    Falling,
}

impl Way {
    // The pair of two numbers, laid in this way.
    fn lay(self, first: usize, second: usize) -> (usize, usize)
        requires { (first < 64) × (second < 64) }
        ensures { (result.0 < 64) × (result.1 < 64) }
    {
        match self {
            Way::AsDrawn => (first, second),
            Way::Rising => (first.min(second), first.max(second)),
            Way::Falling => (first.max(second), first.min(second)),
        }
    }
}

// The numbers of pairs in quarters of the number of messages.
const QUARTERS: [usize; 8] = [1, 2, 3, 4, 6, 10, 24, 100];

// The most pairs of n messages.
fn most_pairs(n: usize, density: usize) -> usize
    requires { (n ≤ 64) × (density < 8) }
    ensures { result ≤ 1600 }
{
    n * QUARTERS[density] / 4
}

// How long a table is: room for the rows of 64 messages, and one row more.
const TABLE: usize = 520;

// A table of pairs of messages: a row for each message, with a bit for each.
#[derive(Clone, Copy)]
struct Table {
    form: Form,
    bytes: [u8; TABLE],
}

impl Table {
    fn empty(form: Form) -> Table {
        Table {
            form,
            bytes: [0; TABLE],
        }
    }

    fn set(&mut self, from: usize, to: usize)
        requires { (from < 64) × (to ≤ 64) }
    {
        let place = self.form.rows_length(from) + to / 8;
        self.bytes[place] |= 1 << (to % 8);
    }

    // Draws a number of pairs below a bound, and then the pairs.
    fn fill(&mut self, draws: &mut Draws, n: usize, bound: usize, way: Way)
        requires { (0 < n) × (n ≤ 64) × (0 < bound) }
    {
        for _ in 0..draws.below(bound) {
            let first = draws.below(n);
            let second = draws.below(n);
            let (from, to) = way.lay(first, second);
            self.set(from, to);
        }
    }
}

// ---- the relations of a turn

// What the tables are drawn like.
enum Shape {
    // pairs as they are drawn
    Free,
    // each message causes itself, and stalls the one before it
    Ring,
    // the lower message causes the higher, and the higher stalls the lower
    Ordered,
}

impl Shape {
    fn drawn(draws: &mut Draws) -> Shape {
        match draws.below(4) {
            0 => Shape::Free,
            1 => Shape::Ring,
            _ => Shape::Ordered,
        }
    }
}

// What n messages cause and stall.
#[derive(Drop)]
struct Relations {
    form: Form,
    n: usize,
    causes: Table,
    stalls: Table,
    ghost some: { 0 < n },
    ghost few: { n ≤ 64 },
}

impl Relations {
    fn empty(form: Form, n: usize) -> Relations
        requires { (0 < n) × (n ≤ 64) }
    {
        Relations {
            form,
            n,
            causes: Table::empty(form),
            stalls: Table::empty(form),
        }
    }

    // All messages in a ring, and up to three more pairs that stall.
    fn add_ring(&mut self, draws: &mut Draws) {
        let n = self.n;
        for message in 0..n {
            self.causes.set(message, message);
            self.stalls.set((message + 1) % n, message);
        }
        self.stalls.fill(draws, n, 4, Way::AsDrawn);
    }

    // Pairs in both tables, as many as the round says.
    fn add_pairs(&mut self, draws: &mut Draws, round: usize, causes: Way, stalls: Way)
        requires { round < 75 }
    {
        let n = self.n;
        let causes_most = most_pairs(n, round % 8);
        let stalls_most = most_pairs(n, self.form.stalls_density(round));
        self.causes.fill(draws, n, causes_most + 1, causes);
        self.stalls.fill(draws, n, stalls_most + 1, stalls);
    }

    // Draws the shape, and both tables.
    fn relate(&mut self, draws: &mut Draws, round: usize)
        requires { round < 75 }
    {
        match Shape::drawn(draws) {
            Shape::Free => self.add_pairs(draws, round, Way::AsDrawn, Way::AsDrawn),
            Shape::Ring => self.add_ring(draws),
            Shape::Ordered => self.add_pairs(draws, round, Way::Rising, Way::Falling),
        }
    }

    // The last row of causes gets bit n, if n is below most.
    fn add_stray(&mut self) {
        let n = self.n;
        if n < self.form.most() {
            self.causes.set(n - 1, n);
        }
    }
}

// ---- the faults of a turn

// What is wrong with what a call is given.
#[derive(Clone, Copy)]
enum Fault {
    Nothing,
    NoMessages,
    TooManyMessages,
    ShortCauses,
    LongStalls,
    StrayBit,
    ShortOutput,
    StrayBitAndShortOutput,
}

impl Fault {
    fn drawn(draws: &mut Draws) -> Fault {
        match draws.below(8) {
            1 => Fault::NoMessages,
            2 => Fault::TooManyMessages,
            3 => Fault::ShortCauses,
            4 => Fault::LongStalls,
            5 => Fault::StrayBit,
            6 => Fault::ShortOutput,
            7 => Fault::StrayBitAndShortOutput,
            _ => Fault::Nothing,
        }
    }

    fn has_stray_bit(self) -> bool {
        matches!(self, Fault::StrayBit | Fault::StrayBitAndShortOutput)
    }

    // What the call is given of n messages and so much room.
    fn given(self, form: Form, n: usize, room: usize) -> Given
        requires { (0 < n) × (n ≤ 64) × (room ≤ 67) }
        ensures { (result.causes ≤ 520) × (result.stalls ≤ 520) × (result.room ≤ 67) }
    {
        let bytes = form.rows_length(n);
        let right = Given {
            n,
            causes: bytes,
            stalls: bytes,
            room,
        };
        match self {
            Fault::Nothing | Fault::StrayBit => right,
            Fault::NoMessages => Given { n: 0, ..right },
            Fault::TooManyMessages => Given {
                n: n + form.most(),
                ..right
            },
            Fault::ShortCauses => Given {
                causes: bytes - 1,
                ..right
            },
            Fault::LongStalls => Given {
                stalls: bytes + 1,
                ..right
            },
            Fault::ShortOutput | Fault::StrayBitAndShortOutput => Given {
                room: n - 1,
                ..right
            },
        }
    }
}

// The most bytes of an output.
const ROOM: usize = 67;

// The numbers that are given to the call: of messages, and of bytes of each table and of the output.
#[derive(Clone, Copy)]
struct Given {
    n: usize,
    causes: usize,
    stalls: usize,
    room: usize,
}

// ---- the output

// How a byte of the output is shown.
fn shown(byte: u8) -> u8 {
    match byte {
        0..=9 => b'0' + byte,
        10..=35 => b'a' + (byte - 10),
        36..=61 => b'A' + (byte - 36),
        62 => b'+',
        63 => b'-',
        255 => b'.',
        _ => b'?',
    }
}

// Makes each byte what is shown of it.
fn show(out: &mut [u8]) {
    for byte in out.iter_mut() {
        *byte = shown(*byte);
    }
}

// Prints the line of a call: its numbers, as a host gets them.
fn report(rt: &impl Print, n: usize, answer: RelationsAnswer, out: &mut [u8]) -> io::Result<()> {
    print!(rt;
        "{n} {} {} {} {} {} ",
        answer.number, answer.length, answer.networks, answer.needed, answer.pairs
    )?;
    show(out);
    rt.write_all(out)?;
    if answer.number == 0 {
        print!(rt; " joins {}", answer.joins)?;
    }
    println!(rt;)
}

// ---- the turns

// Makes the call with the numbers given.
fn call(rt: &impl Print, relations: &Relations, given: Given) -> io::Result<()>
    requires { (given.causes ≤ 520) × (given.stalls ≤ 520) × (given.room ≤ 67) }
{
    let mut out = [255u8; ROOM];
    let lent = &mut out[..given.room];
    let answer = relations.form.call(
        given.n,
        &relations.causes.bytes[..given.causes],
        &relations.stalls.bytes[..given.stalls],
        lent,
    );
    report(rt, given.n, answer, lent)
}

// One turn.
fn turn(rt: &impl Print, draws: &mut Draws, form: Form, n: usize, round: usize) -> io::Result<()>
    requires { (0 < n) × (n ≤ 64) × (round < 75) }
{
    let mut relations = Relations::empty(form, n);
    relations.relate(draws, round);
    let room = n + draws.below(4);
    let fault = if round < form.first_faulty_round() {
        Fault::Nothing
    } else {
        Fault::drawn(draws)
    };
    if fault.has_stray_bit() {
        relations.add_stray();
    }
    call(rt, &relations, fault.given(form, n, room))
}

// The turns of a round.
fn play_round(rt: &impl Print, draws: &mut Draws, form: Form, round: usize) -> io::Result<()>
    requires { round < 75 }
{
    for n in 1..=form.most() {
        turn(rt, draws, form, n, round)?;
    }
    Ok(())
}

// All turns of a form.
fn play(rt: &impl Print, draws: &mut Draws, form: Form) -> io::Result<()> {
    for round in 0..form.rounds() {
        play_round(rt, draws, form, round)?;
    }
    Ok(())
}

fn main(rt: HostRuntime) -> io::Result<()> {
    let mut draws = Draws::new();
    play(&rt, &mut draws, Form::First)?;
    play(&rt, &mut draws, Form::Second)
}
