// Run and cut on small cases, each with what it must print in `stdout`, worked out by hand from the sentences quoted here.
// A line has the case's number and the answer; where an image is shown, it is one of 256 zero bytes, four lines, before the
// call, and its bytes 0, 8 and 64 follow.
#![tactic(auto)]

use std::io;
use steps::Refusal;

const BACK: u64 = 4294967296;

const FENCE: u64 = 8589934592;

fn answer(rt: &impl Print, case: u64, ran: Result<(), Refusal>) -> io::Result<()> {
    print!(rt; "{case} {}", machine::ran_as(ran))
}

fn show(rt: &impl Print, case: u64, ran: Result<(), Refusal>, image: &[u8; 256]) -> io::Result<()> {
    answer(rt, case, ran)?;
    println!(rt; " {} {} {}", image[0], image[8], image[64])
}

// Lines 0 and 1 have so many arrivals, lines 2 and 3 none.
fn cut(
    rt: &impl Print,
    case: u64,
    list: &[u64],
    n: usize,
    line0: u64,
    line1: u64,
) -> io::Result<()> {
    let mut image = [0u8; 256];
    let arrivals = [line0, line1, 0, 0];
    let ran = machine::cut(&mut image, list, n, &arrivals);
    show(rt, case, ran, &image)
}

fn run(rt: &impl Print, case: u64, list: &[u64], n: usize) -> io::Result<()> {
    let mut image = [0u8; 256];
    let ran = machine::run(&mut image, list, n);
    show(rt, case, ran, &image)
}

// "Steps: write-back of line 0, store to line 0, fence. Arrivals 0 for line 0: answer 10." The store is settled, so it is
// there or the call is refused. Of one store not two can arrive. Before the fence it may be missing. "Cut with n = 0 and
// all arrivals 0: image unchanged", and then one arrival is above the made ones.
fn settled(rt: &impl Print) -> io::Result<()> {
    let list = [BACK, 0, 0, 5, FENCE, 0];
    cut(rt, 1, &list, 3, 0, 0)?;
    cut(rt, 2, &list, 3, 1, 0)?;
    cut(rt, 3, &list, 3, 2, 0)?;
    cut(rt, 4, &list, 2, 0, 0)?;
    cut(rt, 5, &list, 0, 0, 0)?;
    cut(rt, 6, &list, 0, 0, 1)
}

// "Stores to one line reach the memory in order (..). Lines are independent."
fn in_order(rt: &impl Print) -> io::Result<()> {
    let list = [0, 1, 8, 2, 64, 3];
    cut(rt, 7, &list, 3, 1, 1)?;
    cut(rt, 8, &list, 3, 2, 0)?;
    run(rt, 9, &list, 3)
}

fn arrived(rt: &impl Print, case: u64, arrivals: &[u64]) -> io::Result<()> {
    let mut image = [0u8; 256];
    let list = [0, 1];
    let ran = machine::cut(&mut image, &list, 1, arrivals);
    show(rt, case, ran, &image)
}

// "Arrivals not one per line": an image of 256 bytes has four lines.
fn arrivals(rt: &impl Print) -> io::Result<()> {
    arrived(rt, 10, &[1, 0, 0])?;
    arrived(rt, 11, &[1, 0, 0, 0])?;
    arrived(rt, 12, &[1, 0, 0, 0, 0])
}

// "Run of 56 well-formed steps: accepted. n = 57: 7", and that before 10: 99 arrivals are above the made ones of any line.
// "List shorter than 2n words": 7. Two zero words are a store of 0.
fn lengths(rt: &impl Print) -> io::Result<()> {
    let long = [0u64; 114];
    run(rt, 13, &long, 56)?;
    run(rt, 14, &long, 57)?;
    cut(rt, 15, &long, 57, 99, 99)?;
    let short = [0u64; 111];
    run(rt, 16, &short, 55)?;
    run(rt, 17, &short, 56)
}

fn one(rt: &impl Print, case: u64, a: u64, b: u64) -> io::Result<()> {
    let list = [a, b];
    run(rt, case, &list, 1)
}

// "A store has the byte place (a multiple of 8, inside the image) and the value; a write-back has 2^32 plus the number of a
// line of the image, and 0; a fence has 2^33 and 0. Every other pair is malformed."
fn malformed(rt: &impl Print) -> io::Result<()> {
    one(rt, 18, 248, 7)?;
    one(rt, 19, 256, 7)?;
    one(rt, 20, 4, 7)?;
    one(rt, 21, BACK + 3, 0)?;
    one(rt, 22, BACK + 4, 0)?;
    one(rt, 23, BACK + 3, 1)?;
    one(rt, 24, FENCE, 0)?;
    one(rt, 25, FENCE, 1)?;
    one(rt, 26, FENCE + 1, 0)
}

// "One of the first n steps malformed": a malformed step behind them is not looked at.
fn behind(rt: &impl Print) -> io::Result<()> {
    let list = [8, 5, 4, 4];
    run(rt, 27, &list, 1)?;
    run(rt, 28, &list, 2)
}

fn sized(rt: &impl Print, case: u64, image: &mut [u8], size: usize, n: usize) -> io::Result<()> {
    let list = [0u64; 114];
    if size <= image.len() {
        answer(rt, case, machine::run(&mut image[0..size], &list, n))?;
        println!(rt)?;
    }
    Ok(())
}

// "Image length 0, over 65,536, or no multiple of 256": 1, and that before 7.
fn images(rt: &impl Print) -> io::Result<()> {
    let mut image = [0u8; 65792];
    sized(rt, 29, &mut image, 0, 56)?;
    sized(rt, 30, &mut image, 255, 57)?;
    sized(rt, 31, &mut image, 256, 56)?;
    sized(rt, 32, &mut image, 65536, 56)?;
    sized(rt, 33, &mut image, 65792, 56)
}

fn main(rt: HostRuntime) -> io::Result<()> {
    settled(&rt)?;
    in_order(&rt)?;
    arrivals(&rt)?;
    lengths(&rt)?;
    malformed(&rt)?;
    behind(&rt)?;
    images(&rt)
}
