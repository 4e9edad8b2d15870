// What a list is made of, the two counts that are told of it, and why a call is refused. The memory model stands in specs/.
#![tactic(auto)]

mod refusal;

pub use crate::refusal::Refusal;

// "A step is a store of one word at a place, a write-back of one line, or a fence."
// The place of a store is the number of its word, an eighth of the byte place that stands in the list.
#[derive(Clone, Copy)]
pub enum Step {
    Store(u64, u64),
    WriteBack(u64),
    Fence,
}

// "list room under 112 words" is refused by put, set and del: room for 56 steps of two words. Contracts say the number.
pub const LIST_ROOM: usize = 112;

// "Line writes and word writes are kept apart: a line write is a write-back step, a word write a store step."
#[derive(Clone, Copy)]
pub struct LineWrites(pub u64);

#[derive(Clone, Copy)]
pub struct WordWrites(pub u64);
