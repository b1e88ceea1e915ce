// Rules 1 to 3 over all the cells of a protocol's tables, as rows of bits, and refusal 13.
#![tactic(auto)]

mod by_cells;
pub mod carriers;
pub mod causes;
pub mod entries;
pub mod sent;
pub mod stallers;
pub mod stalls;
