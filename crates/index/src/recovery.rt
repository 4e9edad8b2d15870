// Recovery: the smallest key and the number of each leaf, in chain order, into two lent buffers. The walk notes them in buffers of
// recovery's own, since a refused call writes to none that is lent.
ghost use Rattle.std.specs.Prelude.{◌≡◌, ◌≤◌, length};
ghost use Rattle.steps.specs.Refusals.{Checks};
ghost use Rattle.index.specs.Reading.{is_short, over, recovered_as, recovery_is, recovery_of};

use leaf::place::Leaf;
use machine::check_image;
use steps::Refusal;
use survey::walk::survey_noting;

// The leaves of a sound image and their entries.
#[derive(Clone, Copy)]
pub struct Recovered {
    pub leaves: u64,
    pub entries: u64,
}

// Refusal 8.
fn check_buffers(n: usize, smallest: usize, numbers: usize) -> Result<(), Refusal>
    ensures { Checks (is_short n smallest numbers) Refusal.ShortBuffer result }
{
    if smallest < n || numbers < n {
        return Err(Refusal::ShortBuffer);
    }
    Ok(())
}

// The notes of a walk written out: a block number is noted in a byte.
fn copy_notes(leasts: &[u64], numbers: &[u8], smallest: &mut [u64], blocks: &mut [u64])
    requires { (length leasts.now ≡ length numbers.now) × (length leasts.now ≤ length smallest.old)
        × (length numbers.now ≤ length blocks.old) }
    ensures keys { smallest.new ≡ over leasts.now smallest.old }
    ensures numbers { blocks.new ≡ over numbers.now blocks.old }
{
    for (i, number) in numbers.iter().enumerate() {
        smallest[i] = leasts[i];
        blocks[i] = u64::from(*number);
    }
}

pub fn recovery(
    image: &[u8],
    smallest: &mut [u64],
    blocks: &mut [u64],
) -> Result<Recovered, Refusal>
    ensures { recovery_is (recovered_as result) smallest.new blocks.new
        ≡ recovery_of image.now smallest.old blocks.old }
{
    check_image(image.len() as u64)?;
    check_buffers(image.len() / Leaf::BYTES, smallest.len(), blocks.len())?;
    let mut leasts = [0u64; 256];
    let mut numbers = [0u8; 256];
    let w = survey_noting(image, 0, &mut leasts, &mut numbers).sound()?;
    let n = w.end.leaves as usize;
    copy_notes(&leasts[..n], &numbers[..n], smallest, blocks);
    Ok(Recovered {
        leaves: w.end.leaves,
        entries: w.end.entries,
    })
}
