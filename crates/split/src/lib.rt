// The put into a full leaf: the seven largest keys go to a new leaf, the old leaf is switched to it, and only then, where the
// new key belongs in the old leaf, it is put there.
#![tactic(auto)]

pub mod full;
pub mod heads;
pub mod moved;
pub mod write;
