ghost use Rattle.std.specs.Prelude.{ℕ, Bool};
ghost use Rattle.model.specs.Waiting.{Bounded, Wakes, Takes, NoneWaits};

// A scheduler means a set of waiting row numbers below 1,024. In which order it hands them out is its own affair.
pub trait Scheduler {
    ghost waits: { Self → ℕ → Bool };

    // Adds a number and answers yes; to 1,024 or more it answers no, and changes nothing.
    fn wake(&mut self, row: u16) -> bool
        ensures { Wakes row self.old self.new (waits self.old) (waits self.new) result };

    // Removes and answers a waiting number, and answers none exactly when none waits.
    fn take(&mut self) -> Option<u16>
        ensures { Takes (waits self.old) (waits self.new) result };

    // Empties the set.
    fn clear(&mut self)
        ensures { NoneWaits (waits self.new) };

    ghost bounded: { (s : Self) → Bounded (waits s) };
}
