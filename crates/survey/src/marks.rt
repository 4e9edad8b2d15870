// A set of block numbers, one bit for each.
ghost use Rattle.std.specs.Prelude.{◌≡◌, true, false, not, ◌≤◌, ◌<◌, length};
ghost use Rattle.words.specs.Below.{FirstBelow};
ghost use Rattle.words.specs.Update.{upd};
ghost use Rattle.leaf.specs.Search.{lowest};
ghost use Rattle.survey.specs.Marks.{blocks_in, is_in};

use header::bits::{get, lowest_zero};

// Four words of 64 bits, in an array: which of them has a block is then no branch.
#[derive(Clone, Copy)]
pub struct Marks {
    pub words: [u64; 4],
}

impl Marks {
    // The set that four words tell.
    pub fn of(words: &[u64]) -> Marks
        requires { length words.now ≡ 4 }
        ensures { blocks_in result ≡ words.now }
    {
        Marks {
            words: [words[0], words[1], words[2], words[3]],
        }
    }

    // No block.
    #[tactic(auto, using(crate::specs::Marks::in_none))]
    pub fn none() -> Marks
        ensures { is_in (blocks_in result) ≡ (λ b. false) }
    {
        Marks { words: [0; 4] }
    }

    // Whether a block is in the set.
    #[tactic(auto, using(crate::specs::Marks::in_word))]
    pub fn has(&self, block: usize) -> bool
        requires { block < 256 }
        ensures { result ≡ is_in (blocks_in self.now) block }
    {
        get(self.words[block / 64], block % 64, 1) == 1
    }

    // Puts a block into the set.
    #[tactic(auto, using(crate::specs::Marks::in_or))]
    pub fn mark(&mut self, block: usize)
        requires { block < 256 }
        ensures { is_in (blocks_in self.new) ≡ upd (is_in (blocks_in self.old)) block true }
    {
        let i = block / 64;
        self.words[i] = self.words[i] | (1 << (block % 64));
    }

    // The lowest of all 256 blocks that is not in the set.
    fn first_out(self) -> Option<usize>
        ensures { FirstBelow (λ b. not (is_in (blocks_in self) b)) 256 result }
    {
        for (i, word) in self.words.iter().enumerate() {
            if let Some(bit) = lowest_zero(*word) {
                return Some(64 * i + bit);
            }
        }
        None
    }

    // The lowest of n blocks that is not in the set.
    pub fn lowest_out(self, n: usize) -> Option<usize>
        requires { n ≤ 256 }
        ensures { result ≡ lowest (λ b. not (is_in (blocks_in self) b)) n 0 }
    {
        let block = self.first_out()?;
        if block < n { Some(block) } else { None }
    }
}
