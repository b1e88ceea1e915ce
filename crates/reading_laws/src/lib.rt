// No code: what is known of the readings of both texts.
#![tactic(auto)]

pub mod bounds;
pub mod mappings;
pub mod protocols;
