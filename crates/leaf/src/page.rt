// A leaf's part of an image, with its header read once.
ghost use Rattle.std.specs.Prelude.{◌≡◌, ◌+◌, ◌*◌, ◌≤◌, length, slice_range};
ghost use Rattle.words.specs.Words.{reads};
ghost use Rattle.words.specs.WordLaws.{Bytes};
ghost use Rattle.header.specs.Header.{head_at, bits_of};
ghost use Rattle.leaf.specs.Leaf.{leaf_in, view};

use crate::place::Leaf;
use header::Header;
use header::slot::Slot;
use std::marker::Model;

// A clause sees the bytes.
#[derive(Drop)]
pub struct Page<'a> {
    bytes: &'a [u8],
    head: Header,
}

impl<'a> Model for Page<'a> {
    ghost use Rattle.std.specs.Prelude.{ℕ, List, ◌≡◌, ◌≤◌, length};
    ghost use Rattle.header.specs.Header.{head_at, bits_of};

    ghost Value = { List ℕ };

    ghost view = { λ p. p.bytes.now };

    ghost invariant = { λ p. (256 ≤ length p.bytes.now) × (bits_of p.head ≡ head_at p.bytes.now 0) };
}

impl<'a> Page<'a> {
    pub fn read(bytes: &'a [u8]) -> Page<'a>
        requires { 256 ≤ length bytes.now }
        ensures same { result ≡ bytes.now }
        ensures bytes { Bytes result }
    {
        Page {
            bytes,
            head: Header::read(bytes, 0),
        }
    }

    pub fn bytes(&self) -> &'a [u8]
        ensures { (result.now ≡ self.now) × (256 ≤ length result.now) }
    {
        self.bytes
    }

    pub fn head(&self) -> Header
        ensures { bits_of result ≡ head_at self.now 0 }
    {
        self.head
    }

    pub fn occupied(&self, s: Slot) -> bool
        ensures { result ≡ (leaf_in self.now).occ s }
    {
        self.head().occupied(s)
    }
}

// The page of a block.
pub fn page_of(image: &[u8], block: u64) -> Page<'_>
    requires { 256 * block + 256 ≤ length image.now }
    ensures part { result ≡ slice_range image.now (256 * block) (256 * block + 256) }
    ensures bytes { Bytes result }
    ensures leaf { leaf_in result ≡ view (reads image.now) block }
{
    let a = Leaf::BYTES * (block as usize);
    Page::read(&image[a..a + Leaf::BYTES])
}
