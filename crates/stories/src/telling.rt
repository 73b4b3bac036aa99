ghost use Rattle.std.specs.Prelude.{◌≡◌};
ghost use Rattle.stories.specs.Telling.{kept};

use model::boxes::FlagBox;
use narrowing::Verdict;

// After a contradiction the box is again what it was before.
pub fn put_back(b: &mut FlagBox, before: FlagBox, verdict: Verdict)
    ensures { b.new ≡ kept verdict before b.old }
{
    if let Verdict::Dead = verdict {
        *b = before;
    }
}
