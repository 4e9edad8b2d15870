// The calls that write a list of steps.
ghost use Rattle.std.specs.Prelude.{◌≡◌};
ghost use Rattle.writing.specs.Writing.{put_of, set_of, del_of};
ghost use Rattle.board.specs.Told.{made_is};

use told::making::HutMade;
use writing::change::{del, set};
use writing::put::put;

pub fn hut_put(image: &[u8], list: &mut [u64], key: u64, value: u64) -> HutMade
    ensures { made_is result.answer result.steps result.line_writes result.word_writes list.new
        ≡ put_of image.now list.old key value }
{
    HutMade::from(put(image, list, key, value))
}

pub fn hut_set(image: &[u8], list: &mut [u64], key: u64, value: u64) -> HutMade
    ensures { made_is result.answer result.steps result.line_writes result.word_writes list.new
        ≡ set_of image.now list.old key value }
{
    HutMade::from(set(image, list, key, value))
}

pub fn hut_del(image: &[u8], list: &mut [u64], key: u64) -> HutMade
    ensures { made_is result.answer result.steps result.line_writes result.word_writes list.new
        ≡ del_of image.now list.old key }
{
    HutMade::from(del(image, list, key))
}
