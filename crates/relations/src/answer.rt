// What the relations call answers, and its answer in numbers for a host.
ghost use Rattle.std.specs.Prelude.{◌≡◌};
ghost use Rattle.relations.specs.answer.Packed.{RelationsSmall, packed_relations};
ghost use Rattle.relations.specs.answer.Told.{reason_of, needed_of, answer_of};

use papers::refused::Reason;

// The plan of bare relations.
#[derive(Clone, Copy, PartialEq, Eq)]
pub struct RelationsPlan {
    // how many bytes are written: a network for each message, or in class 2 the messages of a cycle
    pub length: usize,
    // the least count; in class 2 there is none
    pub networks: Option<usize>,
    // the number of waits pairs
    pub pairs: usize,
    // the number of row joins in closing causes
    pub joins: usize,
}

// Why the relations call is refused.
#[derive(Clone, Copy, PartialEq, Eq)]
pub enum CallRefused {
    // the count of messages, or a table of another length than it asks
    Count,
    // a bit at or above the count
    Stray,
    // the output is shorter than needed
    Room { needed: usize },
}

impl CallRefused {
    // Its row of the refusal table.
    fn reason(self) -> Reason
        ensures { result ≡ reason_of self }
    {
        match self {
            CallRefused::Count => Reason::Count,
            CallRefused::Stray => Reason::Stray,
            CallRefused::Room { .. } => Reason::Room,
        }
    }

    // The length needed, as a number of its own: 0 but for ROOM.
    fn needed(self) -> usize
        ensures { result ≡ needed_of self }
    {
        match self {
            CallRefused::Room { needed } => needed,
            _ => 0,
        }
    }
}

// The same in numbers, as the C interface packs them: codes, because a host reads numbers only. Every number is 0 unless the paper says otherwise.
#[derive(Clone, Copy)]
pub struct RelationsAnswer {
    // the refusal number, 0 on success
    pub number: u8,
    // how many bytes are written
    pub length: usize,
    // the least count, 0 for class 2
    pub networks: usize,
    // with refusal 16, the length needed
    pub needed: usize,
    // the number of waits pairs
    pub pairs: usize,
    // the number of row joins in closing causes
    pub joins: usize,
}

impl From<Result<RelationsPlan, CallRefused>> for RelationsAnswer {
    ghost from_gives = { λ told a. a ≡ answer_of told };

    fn from(told: Result<RelationsPlan, CallRefused>) -> RelationsAnswer {
        match told {
            Ok(plan) => RelationsAnswer {
                number: 0,
                length: plan.length,
                networks: plan.networks.unwrap_or(0),
                needed: 0,
                pairs: plan.pairs,
                joins: plan.joins,
            },
            Err(refused) => RelationsAnswer {
                number: refused.reason().number(),
                length: 0,
                networks: 0,
                needed: refused.needed(),
                pairs: 0,
                joins: 0,
            },
        }
    }
}

// The answer as one number, for a host. No From: that could ask nothing, and the contract asks that each number has its place.
pub fn packed(a: RelationsAnswer) -> u64
    requires { RelationsSmall a }
    ensures { result ≡ packed_relations a }
{
    let number = a.number as u64;
    let length = a.length as u64;
    let networks = a.networks as u64;
    let needed = a.needed as u64;
    let pairs = a.pairs as u64;
    let joins = a.joins as u64;
    number
        + length * 256
        + networks * 65536
        + needed * 16777216
        + pairs * 4294967296
        + joins * 281474976710656
}
