// Get and list.
ghost use Rattle.index.specs.Reading.{find_of};
ghost use Rattle.perform.specs.Perform.{text_of, Written, got, rows};
ghost use Rattle.perform.specs.Printing.{Counts};

use crate::ROOM;
use crate::answer::{answer_line, pair_lines};
use board::reading::{hut_find, hut_listing};

pub fn do_get(image: &[u8], key: u64, out: &mut [u8; ROOM]) -> usize
    ensures written { Written out.old (text_of (got (find_of image.now key))) out.new result }
    ensures counts { Counts result out.new }
{
    let found = hut_find(image, key);
    answer_line(out, &[found.answer, found.value])
}

// 4 blocks hold at most 56 entries.
pub fn do_list(image: &[u8; 1024], out: &mut [u8; ROOM]) -> usize
    ensures written { Written out.old (text_of (rows image.now)) out.new result }
    ensures counts { Counts result out.new }
{
    let mut keys = [0u64; 56];
    let mut values = [0u64; 56];
    let listed = hut_listing(image, 0, &mut keys, &mut values);
    let n = listed.count as usize;
    pair_lines(out, &keys[..n], &values[..n])
}
