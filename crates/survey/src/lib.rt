// The one walk of the chain that every call makes: it judges the image leaf by leaf, and notes on the way what the calls ask.
#![tactic(auto)]

pub mod along;
pub mod marks;
pub mod walk;
