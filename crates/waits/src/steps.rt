// The rows of steps among a protocol's messages: waits steps that are given, and queues steps by rule 5.
// Memory is fixed: of the 64 rows n are used, so n goes beside them.
ghost use Rattle.std.specs.Prelude.{◌<◌, ◌≤◌};
ghost use Rattle.waits.specs.steps.Steps.{mapping_of_lem, StepsRows, WithBehind, QueuesRow};

use rows::WIDTH;
use rules::{Message, Network};

// The row with k, if m queues behind k.
fn with_behind(row: u64, networks: &[Network; WIDTH], stalled: u64, m: Message, k: Message) -> u64
    requires { (m.0 < 64) × (k.0 < 64) }
    ensures { WithBehind (mapping_of_lem networks.now) stalled m.0 k.0 row result }
{
    let to = k.index();
    if m != k && networks[m.index()] == networks[to] && rows::has(stalled, to) {
        rows::with_bit(row, to)
    } else {
        row
    }
}

// The messages, of the first n, behind which m queues.
fn queues_row(networks: &[Network; WIDTH], stalled: u64, n: usize, m: Message) -> u64
    requires { (n ≤ 64) × (m.0 < n) }
    ensures { QueuesRow (mapping_of_lem networks.now) stalled n m.0 result }
{
    let mut row = 0u64;
    for i in 0..n {
        let k = Message(i as u8);
        row = with_behind(row, networks, stalled, m, k);
    }
    row
}

// The rows of waits and queues steps together, by rule 5. The rows from n on are 0.
pub fn steps_of(
    waits: &[u64; WIDTH],
    stalls: &[u64; WIDTH],
    networks: &[Network; WIDTH],
    n: usize,
) -> [u64; WIDTH]
    requires { n ≤ 64 }
    ensures { StepsRows 64 waits.now stalls.now (mapping_of_lem networks.now) n result }
{
    // the messages that something stalls
    let stalled = rows::all_bits(stalls, n);
    let mut steps = [0u64; WIDTH];
    for i in 0..n {
        let m = Message(i as u8);
        steps[i] = rows::join(waits[i], queues_row(networks, stalled, n, m));
    }
    steps
}
