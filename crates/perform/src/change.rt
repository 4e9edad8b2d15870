// What put, set and del made: the list is run whole, and the counts are told.
ghost use Rattle.board.specs.Told.{made_is};
ghost use Rattle.perform.specs.Perform.{Done, taken};
ghost use Rattle.perform.specs.Printing.{Counts};

use crate::ROOM;
use crate::answer::answer_line;
use board::taking::hut_run;
use told::making::HutMade;

// "Accepted lists are run whole."
pub fn take(image: &mut [u8], list: &[u64], made: HutMade, out: &mut [u8; ROOM]) -> usize
    ensures done { Done (taken image.old (made_is made.answer made.steps made.line_writes made.word_writes
        list.now)) image.new out.old out.new result }
    ensures counts { Counts result out.new }
{
    if made.answer == 0 {
        hut_run(image, list, made.steps);
    }
    answer_line(
        out,
        &[made.answer, made.steps, made.line_writes, made.word_writes],
    )
}
