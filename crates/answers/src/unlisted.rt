// What a call on texts tells the library that makes it: how long the listing is, or why there is none.
ghost use Rattle.std.specs.Prelude.{◌≡◌};
ghost use Rattle.answers.specs.unlisted.Unlisted.{paper_of};
ghost use Rattle.answers.specs.declared.unlisted.Unlisted.TheVariants.{NoRoom};

use papers::refused::Refused;

// The papers of a judgement, in the order in which they are read. A plan has the first alone.
#[derive(Clone, Copy, PartialEq, Eq)]
pub enum Paper {
    Protocol,
    Mapping,
}

impl Paper {
    // The number of the paper.
    pub fn number(self) -> u8
        ensures { result ≡ paper_of self }
    {
        match self {
            Paper::Protocol => 0,
            Paper::Mapping => 1,
        }
    }
}

// Refusal 16: the listing is longer than the lent output.
#[derive(Clone, Copy, PartialEq, Eq)]
pub struct NoRoom {
    pub needed: usize,
}

// Why there is no listing.
#[derive(Clone, Copy, PartialEq, Eq)]
pub enum Unlisted {
    Refused(Refused, Paper),
    NoRoom(NoRoom),
}

impl From<NoRoom> for Unlisted {
    ghost from_gives = { λ r u. u ≡ NoRoom r };

    fn from(r: NoRoom) -> Unlisted {
        Unlisted::NoRoom(r)
    }
}
