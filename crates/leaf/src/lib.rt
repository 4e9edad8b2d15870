// A leaf of 256 bytes: its page, where its parts stand, the search in it, and the pass that judges it.
#![tactic(auto)]

pub mod page;
pub mod place;
pub mod search;
pub mod tally;
