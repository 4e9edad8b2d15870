// The images that the cases start from.
ghost use Rattle.std.specs.Prelude.{◌+◌, ◌*◌, ◌≤◌, ◌<◌, length};

use header::slot::Slot;
use header::{Header, fingerprint_of};
use leaf::place::Leaf;

pub fn enter(image: &mut [u8], block: usize, s: usize, key: u64, value: u64)
    requires { (256 * block + 256 ≤ length image.old) × (s < 14) }
{
    let a = Leaf::BYTES * block;
    let s = Slot::new(s);
    let head = Header::read(image, a).mark(s, fingerprint_of(key));
    words::set_word(image, a + Leaf::key_place(s), key);
    words::set_word(image, a + Leaf::value_place(s), value);
    words::set_word(image, a, head.low);
    words::set_word(image, a + 8, head.high);
}

pub fn link(image: &mut [u8], block: usize, next: u64)
    requires { 256 * block + 256 ≤ length image.old }
{
    let a = Leaf::BYTES * block;
    words::set_word(image, a + Leaf::SIBLING0, next);
}

// Blocks 0, 2, 1 in this order: keys 5 and 10, keys 20 and 30, key 2^64 - 1, each with the value told. Block 3 is free.
pub fn four_blocks() -> [u8; 1024] {
    let mut image = [0u8; 1024];
    enter(&mut image, 0, 3, 10, 100);
    enter(&mut image, 0, 1, 5, 50);
    link(&mut image, 0, 2);
    enter(&mut image, 2, 0, 20, 200);
    enter(&mut image, 2, 13, 30, 300);
    link(&mut image, 2, 1);
    enter(&mut image, 1, 6, u64::MAX, 7);
    image
}

// Block b has the key 10b + 1 with the value b, and names block b + 1, the last one no block.
pub fn long_chain() -> [u8; 65536] {
    let mut image = [0u8; 65536];
    for b in 0..256 {
        let n = b as u64;
        enter(&mut image, b, 0, 10 * n + 1, n);
        link(&mut image, b, n + 1);
    }
    image
}
