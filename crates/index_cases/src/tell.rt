// What a call answers, in document 01's numbers, and what the buffers lent to it hold.
ghost use Rattle.std.specs.Prelude.{◌≤◌};

use index::recovery::Recovered;
use std::io;
use steps::Refusal;
use telling::{end_line, tell, tell_all};

// What find or listing answers: the number, then the value or count, which is 0 where the call is refused.
pub fn tell_answer(rt: &impl Print, answer: Result<u64, Refusal>) -> io::Result<()> {
    match answer {
        Ok(value) => {
            tell(rt, 0)?;
            tell(rt, value)
        }
        Err(refusal) => {
            tell(rt, u64::from(refusal))?;
            tell(rt, 0)
        }
    }
}

pub fn tell_recovered(rt: &impl Print, recovered: Result<Recovered, Refusal>) -> io::Result<()> {
    match recovered {
        Ok(Recovered { leaves, entries }) => {
            tell(rt, 0)?;
            tell(rt, leaves)?;
            tell(rt, entries)
        }
        Err(refusal) => {
            tell(rt, u64::from(refusal))?;
            tell(rt, 0)?;
            tell(rt, 0)
        }
    }
}

// ---- the calls, into buffers whose elements are all 9

pub fn find(rt: &impl Print, image: &[u8], key: u64) -> io::Result<()> {
    tell_answer(rt, index::find::find(image, key))
}

pub fn list(rt: &impl Print, image: &[u8], from: u64, k: usize, v: usize) -> io::Result<()>
    requires { (k ≤ 6) × (v ≤ 6) }
{
    let mut keys = [9u64; 6];
    let mut values = [9u64; 6];
    let keys = &mut keys[..k];
    let values = &mut values[..v];
    tell_answer(rt, index::listing::listing(image, from, keys, values))?;
    tell_all(rt, keys)?;
    tell_all(rt, values)
}

pub fn recover(rt: &impl Print, image: &[u8], k: usize, v: usize) -> io::Result<()>
    requires { (k ≤ 4) × (v ≤ 4) }
{
    let mut smallest = [9u64; 4];
    let mut blocks = [9u64; 4];
    let smallest = &mut smallest[..k];
    let blocks = &mut blocks[..v];
    tell_recovered(rt, index::recovery::recovery(image, smallest, blocks))?;
    tell_all(rt, smallest)?;
    tell_all(rt, blocks)
}

// Find 20, list from 6 on into two keys and three values, recover into four each.
pub fn tell_image(rt: &impl Print, image: &[u8]) -> io::Result<()> {
    find(rt, image, 20)?;
    list(rt, image, 6, 2, 3)?;
    recover(rt, image, 4, 4)?;
    end_line(rt)
}
