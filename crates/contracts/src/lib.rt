// The calls once more, each promising what the demands speak of: so that the family of contracts in demands/specs/Calls and
// demands/specs/UniqueOutside is the sources' by proof, and not by a reader's eye.
#![tactic(auto)]

mod inside;
pub mod outside;
