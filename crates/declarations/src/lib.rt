// The lines that declare messages, events and states: how each is refused, and what it stands for.
// Three functions of one frame: each has its row, its name space and its limit, and a trait of these would be longer than they are.
#![tactic(auto)]

pub mod events;
pub mod messages;
pub mod named_fields;
pub mod states;
