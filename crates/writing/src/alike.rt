// What put, set and del refuse alike, and the walk where none of it applies.
ghost use Rattle.std.specs.Prelude.{MatchResult};
ghost use Rattle.steps.specs.Refusals.{Checks};
ghost use Rattle.survey.specs.Walk.{state_of};
ghost use Rattle.writing.specs.Writing.{short_list};
ghost use Rattle.writing.specs.Alike.{Walked, RefusedAlike};

use machine::check_image;
use steps::{LIST_ROOM, Refusal};
use survey::walk::{Walk, survey};

// Refusal 2.
fn check_room(list: &[u64]) -> Result<(), Refusal>
    ensures { Checks (short_list list.now) Refusal.ShortList result }
{
    if list.len() < LIST_ROOM {
        return Err(Refusal::ShortList);
    }
    Ok(())
}

pub fn walk_for(image: &[u8], list: &[u64], key: u64) -> Result<Walk, Refusal>
    ensures { MatchResult result (λ w. Walked image.now list.now key (state_of w)) (λ r. RefusedAlike image.now list.now r) }
{
    check_image(image.len() as u64)?;
    check_room(list)?;
    survey(image, key).sound()
}
