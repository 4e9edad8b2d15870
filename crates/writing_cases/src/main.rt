// Put, set and del on document 01's cases, each list run where there is one. A line has the answer, the steps, the line writes and
// the word writes, or what a sentence of the file `meaning` says.
#![tactic(auto)]

use index::recovery::Recovered;
use std::io;
use steps::{LIST_ROOM, Refusal};
use telling::{end_line, tell};
use writing::Made;

// Tells the answer, and hands the steps on.
fn tell_made(rt: &impl Print, made: Result<Made, Refusal>) -> io::Result<u64> {
    match made {
        Ok(made) => {
            tell(rt, 0)?;
            tell(rt, made.steps)?;
            tell(rt, made.line_writes.0)?;
            tell(rt, made.word_writes.0)?;
            Ok(made.steps)
        }
        Err(refusal) => {
            tell(rt, u64::from(refusal))?;
            Ok(0)
        }
    }
}

// Tells what a call answers, and runs the list that it makes.
fn make<F>(rt: &impl Print, image: &mut [u8], call: F) -> io::Result<[u64; LIST_ROOM]>
where
    F: FnOnce(&[u8], &mut [u64]) -> Result<Made, Refusal>,
    requires { F.IsAlwaysCallable call }
{
    let mut list = [0u64; LIST_ROOM];
    let n = tell_made(rt, call(image, &mut list))?;
    let _ = machine::run(image, &list, n as usize);
    Ok(list)
}

fn put(rt: &impl Print, image: &mut [u8], key: u64) -> io::Result<()> {
    make(
        rt,
        image,
        |image, list| writing::put::put(image, list, key, 7),
    )?;
    end_line(rt)
}

fn set(rt: &impl Print, image: &mut [u8], key: u64, value: u64) -> io::Result<()> {
    make(
        rt,
        image,
        |image, list| writing::change::set(image, list, key, value),
    )?;
    end_line(rt)
}

// The first step is told too: the place of its store and the word stored.
fn del(rt: &impl Print, image: &mut [u8], key: u64) -> io::Result<()> {
    let list = make(
        rt,
        image,
        |image, list| writing::change::del(image, list, key),
    )?;
    tell(rt, list[0])?;
    tell(rt, list[1])?;
    end_line(rt)
}

fn find(rt: &impl Print, image: &[u8], key: u64) -> io::Result<()> {
    match index::find::find(image, key) {
        Ok(v) => tell(rt, v)?,
        Err(refusal) => tell(rt, u64::from(refusal))?,
    }
    end_line(rt)
}

// The leaves and the entries, then each leaf's block.
fn leaves(rt: &impl Print, image: &[u8]) -> io::Result<()> {
    let mut smallest = [0u64; 2];
    let mut blocks = [9u64; 2];
    match index::recovery::recovery(image, &mut smallest, &mut blocks) {
        Ok(Recovered { leaves, entries }) => {
            tell(rt, leaves)?;
            tell(rt, entries)?;
        }
        Err(refusal) => tell(rt, u64::from(refusal))?,
    }
    tell(rt, blocks[0])?;
    tell(rt, blocks[1])?;
    end_line(rt)
}

fn put_all(rt: &impl Print, image: &mut [u8], first: u64, last: u64) -> io::Result<()> {
    for key in first..=last {
        put(rt, image, key)?;
    }
    Ok(())
}

// "P2 Keys 1 to 14 put in order (..). P4 Then put 15", the second leaf deleted entry by entry, the last by "P7", and the freed block
// taken again.
fn above(rt: &impl Print) -> io::Result<()> {
    let mut image = [0u8; 512];
    put_all(rt, &mut image, 1, 15)?;
    leaves(rt, &image)?;
    find(rt, &image, 15)?;
    put(rt, &mut image, 15)?;
    set(rt, &mut image, 15, 9)?;
    find(rt, &image, 15)?;
    set(rt, &mut image, 16, 9)?;
    del(rt, &mut image, 16)?;
    delete_second(rt, &mut image)?;
    leaves(rt, &image)?;
    put_all(rt, &mut image, 8, 15)?;
    leaves(rt, &image)
}

fn delete_second(rt: &impl Print, image: &mut [u8]) -> io::Result<()> {
    for key in 8..=15 {
        del(rt, image, key)?;
    }
    Ok(())
}

// "P5 Put 0 in its place."
fn below(rt: &impl Print) -> io::Result<()> {
    let mut image = [0u8; 512];
    put_all(rt, &mut image, 1, 14)?;
    put(rt, &mut image, 0)?;
    find(rt, &image, 0)?;
    leaves(rt, &image)
}

// "P6 The same with N = 1."
fn one_block(rt: &impl Print) -> io::Result<()> {
    let mut image = [0u8; 256];
    put_all(rt, &mut image, 1, 15)?;
    leaves(rt, &image)
}

// "list room under 112 words", and "words past the list (..) stay".
fn rooms(rt: &impl Print) -> io::Result<()> {
    let image = [0u8; 256];
    let mut short = [5u64; 111];
    tell_made(rt, writing::put::put(&image, &mut short, 1, 7))?;
    tell(rt, short[0])?;
    end_line(rt)?;
    let mut list = [5u64; 112];
    tell_made(rt, writing::put::put(&image, &mut list, 1, 7))?;
    for word in &list[..11] {
        tell(rt, *word)?;
    }
    end_line(rt)
}

fn main(rt: HostRuntime) -> io::Result<()> {
    rooms(&rt)?;
    above(&rt)?;
    below(&rt)?;
    one_block(&rt)
}
