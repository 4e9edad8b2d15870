// The lists of document 01 written into a lent list, step for step: crate lists says what each holds.
#![tactic(auto)]

pub mod entry;
pub mod plain;
pub mod short;
