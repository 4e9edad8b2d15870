// What the C interface tells: each answer of the calls below as a struct of numbers.
#![tactic(auto)]

pub mod making;
pub mod reading;
