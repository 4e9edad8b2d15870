// The calls that read an image.
#![tactic(auto)]

pub mod find;
pub mod listing;
pub mod recovery;
