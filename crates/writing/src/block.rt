// One block of an image.
ghost use Rattle.std.specs.Prelude.{◌≡◌, ◌+◌, ◌*◌, ◌≤◌, length};
ghost use Rattle.words.specs.Words.{reads};
ghost use Rattle.header.specs.Header.{head_at};
ghost use Rattle.leaf.specs.Leaf.{leaf_in};
ghost use Rattle.image.specs.Image.{leaves};
ghost use Rattle.lists.specs.Lists.{head_in};

use leaf::page::{Page, page_of};

// Its page, whose leaf and header are the image's.
pub fn page_in(image: &[u8], block: u8) -> Page<'_>
    requires { 256 * block + 256 ≤ length image.now }
    ensures leaf { leaf_in result ≡ leaves image.now block }
    ensures head { head_at result 0 ≡ head_in (reads image.now) block }
{
    page_of(image, u64::from(block))
}
