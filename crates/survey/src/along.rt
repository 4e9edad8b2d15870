// The way along the chain of an image that the walk found sound.
ghost use Rattle.std.specs.Prelude.{◌≡◌, ◌+◌, ◌*◌, ◌≤◌, length};
ghost use Rattle.words.specs.Words.{reads};
ghost use Rattle.leaf.specs.Leaf.{view};

use leaf::page::page_of;
use leaf::search::next_of;

// The block that the active sibling of a block names.
pub fn next_block(image: &[u8], block: u64) -> u64
    requires { 256 * block + 256 ≤ length image.now }
    ensures { result ≡ (view (reads image.now) block).next }
{
    next_of(&page_of(image, block))
}
