// The lines of a protocol text.
#![tactic(auto)]

pub mod misplaced;
pub mod next;
pub mod shapes;
pub mod words;
