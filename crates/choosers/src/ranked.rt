ghost use Rattle.std.specs.Prelude.{◌≡◌, min};
ghost use Rattle.model.specs.View.{at};
ghost use Rattle.choosers.specs.Choices.{better, highest, ranked};
ghost use Rattle.choosers.specs.Standing.{ranked_lawful};

use crate::flags::{flags_below, is_open, with_value};
use model::boxes::FlagBox;
use model::chooser::Chooser;

// A chooser that keeps a rank for each flag: it picks the open flag of the highest rank, the lower flag among equals, and 1 first.
#[derive(Clone, Copy)]
pub struct Ranked {
    pub ranks: [u8; 256],
}

impl Ranked {
    // A chooser with these ranks, that of flag 0 first.
    pub fn new(ranks: [u8; 256]) -> Ranked
        ensures { result.ranks ≡ ranks }
    {
        Ranked { ranks }
    }

    // Of the best flag so far, if there is one, and a higher flag: that of the higher rank, and the lower flag among equals.
    fn better(&self, best: Option<u8>, flag: u8) -> u8
        ensures { result ≡ better self.now.ranks best flag }
    {
        match best {
            Some(lower) if self.ranks[flag as usize] > self.ranks[lower as usize] => flag,
            Some(lower) => lower,
            None => flag,
        }
    }

    // The open flag of the highest rank below n, and the lowest of several.
    fn highest_open(&self, b: &FlagBox, n: usize) -> Option<u8>
        ensures { result ≡ highest self.now.ranks (at b.now) (min n 256) }
    {
        let mut best = None;
        for flag in flags_below(n).map(|flag| flag as u8) {
            if is_open(b, flag) {
                best = Some(self.better(best, flag));
            }
        }
        best
    }
}

impl Chooser for Ranked {
    ghost picks = { λ c b n r. r ≡ ranked c.ranks b n };

    ghost lawful = { λ c b n r e. ranked_lawful b n c.ranks r e };

    fn choose(&self, b: &FlagBox, n: usize) -> Option<(usize, bool)> {
        with_value(self.highest_open(b, n), true)
    }
}
