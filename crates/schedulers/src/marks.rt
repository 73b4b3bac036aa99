// Marks for the numbers that a scheduler holds.
ghost use Rattle.std.specs.Prelude.{◌≡◌, ℕ, false, length};
ghost use Rattle.schedulers.specs.Marks.{marked, tally};

// How many numbers a scheduler holds: those from 0 on.
pub(crate) const NUMBERS: usize = 1024;

// Marks for as many numbers, none of them set.
pub(crate) fn no_marks() -> [bool; NUMBERS]
    ensures size { length result ≡ 1024 }
    ensures none { (k : ℕ) → marked result k ≡ false }
    ensures tally { tally result ≡ 0 }
{
    [false; NUMBERS]
}
