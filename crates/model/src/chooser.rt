ghost use Rattle.std.specs.Prelude.{ℕ, Bool, Option as Maybe};
ghost use Rattle.model.specs.Boxes.{Box as Sets};
ghost use Rattle.model.specs.Picks.{Lawful};
ghost use Rattle.model.specs.View.{at};

use crate::boxes::FlagBox;

// A chooser names, for a box and any n, an open flag below n with the value to try first. Its meaning is a relation: what it may answer.
// So any lawful pick is covered, also one that varies from call to call.
pub trait Chooser {
    ghost picks: { Self → Sets → ℕ → Maybe (ℕ × Bool) → Type 0 };

    fn choose(&self, b: &FlagBox, n: usize) -> Option<(usize, bool)>
        ensures { picks self.now (at b.now) n result };

    // The flag is open, below n and below 256; none is answered exactly when there is no such flag.
    ghost lawful: { (c : Self) (b : Sets) (n : ℕ) (r : Maybe (ℕ × Bool)) → picks c b n r → Lawful b n r };
}
