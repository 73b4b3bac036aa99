ghost use Rattle.std.specs.Prelude.{◌≡◌};
ghost use Rattle.model.specs.View.{at};
ghost use Rattle.choosers.specs.Choices.{is_open, tried};
ghost use Rattle.choosers.specs.Flags.{FlagsBelow};

use model::boxes::FlagBox;
use model::domain::Domain;
use std::ops::Range;

// The flags that count, the lowest first: a box has 256, whatever n is.
pub fn flags_below(n: usize) -> Range<usize>
    ensures { FlagsBelow n result }
{
    0..n.min(256)
}

// Whether a flag may still have both values.
pub fn is_open(b: &FlagBox, flag: u8) -> bool
    ensures { result ≡ is_open (at b.now flag) }
{
    b.get(flag) == Domain::Open
}

// A flag, if there is one, with the value to try first.
pub fn with_value(flag: Option<u8>, value: bool) -> Option<(usize, bool)>
    ensures { result ≡ tried value flag }
{
    flag.map(|f| (usize::from(f), value))
}
