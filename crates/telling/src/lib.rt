// Numbers printed on one line, for the programs that run cases: each with a space behind it.
#![tactic(auto)]

use std::io;

pub fn tell(rt: &impl Print, n: u64) -> io::Result<()> {
    print!(rt; "{n} ")
}

pub fn tell_all(rt: &impl Print, list: &[u64]) -> io::Result<()> {
    for n in list {
        tell(rt, *n)?;
    }
    Ok(())
}

pub fn end_line(rt: &impl Print) -> io::Result<()> {
    println!(rt)
}
