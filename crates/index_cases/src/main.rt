// Find, listing and recovery on images that are sound and on images damaged in each way that document 01 names. What it must
// print is worked out by hand from document 01; the file stdout has it, and the file meaning a line for each of its lines.
#![tactic(auto)]

mod images;
mod tell;

ghost use Rattle.std.specs.Prelude.{◌+◌, ◌≤◌, ◌<◌};

use crate::images::{enter, four_blocks, link, long_chain};
use crate::tell::{find, list, recover, tell_image, tell_recovered};
use std::io;
use telling::{end_line, tell, tell_all};

// The image of four blocks with one word stored.
fn stored(rt: &impl Print, place: usize, value: u64) -> io::Result<()>
    requires { place + 8 ≤ 1024 }
{
    let mut image = four_blocks();
    words::set_word(&mut image, place, value);
    tell_image(rt, &image)
}

// The image of four blocks with one byte changed.
fn changed(rt: &impl Print, place: usize, value: u8) -> io::Result<()>
    requires { place < 1024 }
{
    let mut image = four_blocks();
    image[place] = value;
    tell_image(rt, &image)
}

// The image of four blocks with one entry more, or another one.
fn entered(rt: &impl Print, block: usize, s: usize, key: u64) -> io::Result<()>
    requires { (block < 4) × (s < 14) }
{
    let mut image = four_blocks();
    enter(&mut image, block, s, key, 1);
    tell_image(rt, &image)
}

// "every chained leaf has lock 0": bit 14 of block 2, and the same of block 3, which is not chained.
fn locks(rt: &impl Print) -> io::Result<()> {
    changed(rt, 513, 96)?;
    changed(rt, 769, 64)
}

// "every active sibling is below N", for block 1, whose siblings are at 496 and 504: the active one N, the inactive one N, the
// active one N - 1, which is an empty leaf.
fn siblings(rt: &impl Print) -> io::Result<()> {
    stored(rt, 496, 4)?;
    stored(rt, 504, 4)?;
    stored(rt, 496, 3)
}

// "no block is met twice": blocks 2 and 1 in a cycle, and block 1 naming itself.
fn cycles(rt: &impl Print) -> io::Result<()> {
    stored(rt, 496, 2)?;
    stored(rt, 496, 1)
}

// "each occupied slot has its key's fingerprint": of slot 0 in block 2, and of its slot 5, which is vacant.
fn prints(rt: &impl Print) -> io::Result<()> {
    changed(rt, 514, 21)?;
    changed(rt, 519, 21)
}

// "all keys in a leaf differ": 30 once more in block 2, and 25.
fn twins(rt: &impl Print) -> io::Result<()> {
    entered(rt, 2, 4, 30)?;
    entered(rt, 2, 4, 25)
}

// "every key is above all keys of earlier leaves": in block 1 a key below, one equal, one above those of block 2, and one that
// stands between those of block 0.
fn order(rt: &impl Print) -> io::Result<()> {
    entered(rt, 1, 6, 25)?;
    entered(rt, 1, 6, 30)?;
    entered(rt, 1, 6, 31)?;
    entered(rt, 1, 6, 7)
}

// "no leaf but block 0 is empty": block 1, and block 0.
fn empty(rt: &impl Print) -> io::Result<()> {
    stored(rt, 256, 0)?;
    stored(rt, 0, 0)
}

// "Blocks outside the chain (..) may hold anything."
fn outside(rt: &impl Print) -> io::Result<()> {
    changed(rt, 1023, 255)?;
    entered(rt, 3, 0, 5)
}

// Refusal 1 before 8 and 3: lengths 0, 1,023 and 65,792.
fn lengths(rt: &impl Print) -> io::Result<()> {
    let image = four_blocks();
    for n in [0, 1023] {
        tell_image(rt, &image[..n])?;
    }
    let long = [0u8; 65792];
    tell_image(rt, &long)
}

fn listings(rt: &impl Print) -> io::Result<()> {
    let image = four_blocks();
    let asked = [
        (0, 6, 6),
        (0, 0, 6),
        (0, 6, 0),
        (0, 1, 1),
        (0, 5, 3),
        (10, 4, 4),
        (11, 4, 4),
        (31, 4, 4),
        (u64::MAX, 4, 4),
    ];
    for (from, k, v) in asked {
        list(rt, &image, from, k, v)?;
        end_line(rt)?;
    }
    Ok(())
}

fn finds(rt: &impl Print) -> io::Result<()> {
    let image = four_blocks();
    for key in [5, 10, 30, u64::MAX, 0, 15, 31] {
        find(rt, &image, key)?;
    }
    end_line(rt)
}

// Refusal 8: either buffer under N elements, before 3 and after 1.
fn shorts(rt: &impl Print) -> io::Result<()> {
    let mut image = four_blocks();
    recover(rt, &image, 3, 4)?;
    end_line(rt)?;
    recover(rt, &image, 4, 3)?;
    end_line(rt)?;
    link(&mut image, 1, 4);
    for (n, k) in [(1024, 4), (1000, 0)] {
        recover(rt, &image[..n], k, 0)?;
        end_line(rt)?;
    }
    Ok(())
}

// One block: blank, and with keys 0 and 2^64 - 1, which both have the fingerprint 0.
fn one_block(rt: &impl Print) -> io::Result<()> {
    let mut image = [0u8; 256];
    find(rt, &image, 0)?;
    list(rt, &image, 0, 2, 2)?;
    recover(rt, &image, 1, 1)?;
    end_line(rt)?;
    enter(&mut image, 0, 9, u64::MAX, 1);
    enter(&mut image, 0, 2, 0, 2);
    find(rt, &image, 0)?;
    find(rt, &image, u64::MAX)?;
    list(rt, &image, 0, 3, 3)?;
    list(rt, &image, 1, 3, 3)?;
    recover(rt, &image, 1, 1)?;
    end_line(rt)
}

fn tell_long(rt: &impl Print, image: &[u8]) -> io::Result<()> {
    let mut smallest = [9u64; 257];
    let mut blocks = [9u64; 257];
    find(rt, image, 2551)?;
    find(rt, image, 2552)?;
    list(rt, image, 2541, 4, 4)?;
    let told = index::recovery::recovery(image, &mut smallest, &mut blocks);
    tell_recovered(rt, told)?;
    tell(rt, smallest[0])?;
    tell(rt, blocks[0])?;
    tell_all(rt, &smallest[254..])?;
    tell_all(rt, &blocks[254..])?;
    end_line(rt)
}

// 256 blocks: a chain of all of them whose last sibling is N, then 0; and blank.
fn many_blocks(rt: &impl Print) -> io::Result<()> {
    let mut image = long_chain();
    tell_long(rt, &image)?;
    link(&mut image, 255, 0);
    tell_long(rt, &image)?;
    let blank = [0u8; 65536];
    tell_long(rt, &blank)
}

fn main(rt: HostRuntime) -> io::Result<()> {
    let image = four_blocks();
    tell_image(&rt, &image)?;
    locks(&rt)?;
    siblings(&rt)?;
    cycles(&rt)?;
    prints(&rt)?;
    twins(&rt)?;
    order(&rt)?;
    empty(&rt)?;
    outside(&rt)?;
    lengths(&rt)?;
    finds(&rt)?;
    listings(&rt)?;
    shorts(&rt)?;
    one_block(&rt)?;
    many_blocks(&rt)
}
