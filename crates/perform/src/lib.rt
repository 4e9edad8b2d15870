// The bench program's commands done on its image of 4 blocks: each gives the bytes that it prints.
#![tactic(auto)]

mod answer;
mod change;
mod reading;

ghost use Rattle.std.specs.Prelude.{◌≡◌};
ghost use Rattle.perform.specs.Perform.{too_long, text_of, Written, refused, performed, Done};
ghost use Rattle.perform.specs.Printing.{Counts};

use answer::answer_line;
use board::making::{hut_del, hut_put, hut_set};
use change::take;
use command::Command;
use reading::{do_get, do_list};
use steps::LIST_ROOM;

// The lines of 56 entries, which is all that 4 blocks hold, each of two numbers of at most 20 digits.
pub const ROOM: usize = 2352;

// "Reads standard input, at most 65,536 bytes."
pub fn too_long(input: &[u8]) -> bool
    ensures { result ≡ too_long input.now }
{
    65536 < input.len()
}

// What a malformed line prints, and all that an input too long does.
pub fn refuse(out: &mut [u8; ROOM]) -> usize
    ensures written { Written out.old (text_of (refused 9)) out.new result }
    ensures counts { Counts result out.new }
{
    answer_line(out, &[9, 0, 0, 0])
}

// Does what a line says, writes what that prints at the start of the buffer and tells how many bytes it is.
#[tactic(auto, unfolding(crate::specs::Perform::performed))]
pub fn perform(image: &mut [u8; 1024], command: Option<Command>, out: &mut [u8; ROOM]) -> usize
    ensures done { Done (performed command image.old) image.new out.old out.new result }
    ensures counts { Counts result out.new }
{
    let Some(command) = command else {
        return refuse(out);
    };
    let mut list = [0u64; LIST_ROOM];
    let made = match command {
        Command::Put(key, value) => hut_put(image, &mut list, key, value),
        Command::Set(key, value) => hut_set(image, &mut list, key, value),
        Command::Del(key) => hut_del(image, &mut list, key),
        Command::Get(key) => return do_get(image, key, out),
        Command::List => return do_list(image, out),
    };
    take(image, &list, made, out)
}
