ghost use Rattle.std.specs.Prelude.{◌≡◌, min};
ghost use Rattle.model.specs.View.{at};
ghost use Rattle.choosers.specs.Choices.{lowest, rising};
ghost use Rattle.choosers.specs.Standing.{rising_lawful};

use crate::flags::{flags_below, is_open, with_value};
use model::boxes::FlagBox;
use model::chooser::Chooser;

// A chooser that goes up: it picks the lowest open flag, and 0 first.
#[derive(Clone, Copy)]
pub struct Rising;

// The lowest open flag below n.
fn lowest_open(b: &FlagBox, n: usize) -> Option<u8>
    ensures { result ≡ lowest (at b.now) (min n 256) }
{
    flags_below(n)
        .map(|flag| flag as u8)
        .find(|&flag| is_open(b, flag))
}

impl Chooser for Rising {
    ghost picks = { λ c b n r. r ≡ rising b n };

    ghost lawful = { λ c b n r e. rising_lawful b n r e };

    fn choose(&self, b: &FlagBox, n: usize) -> Option<(usize, bool)> {
        with_value(lowest_open(b, n), false)
    }
}
