// The calls of the C interface (include/stringhut.h), one thin function each, told in numbers. Each promises what the call below it
// does; `board_c` exports them.
#![tactic(auto)]

pub mod making;
pub mod reading;
pub mod taking;
