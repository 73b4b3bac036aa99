ghost use Rattle.std.specs.Prelude.{◌≡◌, ℕ, ◌<◌, ◌≤◌, false, length, MatchOption};
ghost use Rattle.model.specs.Waiting.{Wakes, Takes, NoneWaits};
ghost use Rattle.schedulers.specs.Marks.{marked};
ghost use Rattle.schedulers.specs.Rings.{seek, IsRound, Leads, Due, MovesOn};
ghost use Rattle.schedulers.specs.Bounds.{marked_within};

use crate::marks::{NUMBERS, no_marks};
use model::scheduler::Scheduler;

// A scheduler that goes round: it gives the first waiting number after the one last taken, at first from 0.
#[derive(Drop)]
pub struct Ring {
    waiting: [bool; NUMBERS],
    // Where the round goes on: one past the number last taken, 0 after 1,023 and at first.
    next: usize,
    // No number from here on waits, so that a round walks only over numbers that were woken since the ring was last seen empty.
    bound: usize,
    ghost size: { length waiting ≡ 1024 },
    ghost inside: { next < 1024 },
    ghost limit: { bound ≤ 1024 },
    ghost quiet: { (k : ℕ) → bound ≤ k → marked waiting k ≡ false },
}

impl Ring {
    ghost use Rattle.schedulers.specs.Rounds.{round};

    // A ring in which none waits, and whose round starts at 0.
    pub fn new() -> Ring
        ensures is_round { IsRound (round result) }
        ensures none { NoneWaits (marked result.waiting) }
        ensures start { result.next ≡ 0 }
    {
        Ring {
            waiting: no_marks(),
            next: 0,
            bound: 0,
        }
    }

    // The first waiting number from `from` on and below `to`. The walk ends at the bound, since none waits past it.
    fn first(&self, from: usize, to: usize) -> Option<usize>
        ensures { MatchOption result ((j : ℕ) → from ≤ j → j < to → marked self.now.waiting j ≡ false) (λ k. Leads (marked self.now.waiting) from to k) }
    {
        (from..to.min(self.bound)).find(|&k| self.waiting[k])
    }

    // The number that comes next: from where the round goes on to the end, and then from 0 to there.
    fn due(&self) -> Option<usize>
        ensures { Due (marked self.now.waiting) self.now.next result }
    {
        self.first(self.next, NUMBERS)
            .or_else(|| self.first(0, self.next))
    }
}

impl Scheduler for Ring {
    ghost use Rattle.schedulers.specs.Rounds.{round};

    ghost waits = { λ s. marked s.waiting };

    ghost bounded = { λ s k w. marked_within s.waiting 1024 k s.size w };

    fn wake(&mut self, row: u16) -> bool
        ensures wakes { Wakes row self.old self.new (marked self.old.waiting) (marked self.new.waiting) result }
        ensures is_round { IsRound (round self.new) }
        ensures next { self.new.next ≡ self.old.next }
    {
        let k = row as usize;
        if k >= NUMBERS {
            return false;
        }
        self.waiting[k] = true;
        self.bound = self.bound.max(k + 1);
        true
    }

    fn take(&mut self) -> Option<u16>
        ensures takes { Takes (marked self.old.waiting) (marked self.new.waiting) result }
        ensures is_round { IsRound (round self.old) × IsRound (round self.new) }
        ensures order { result ≡ seek (marked self.old.waiting) self.old.next 1024 }
        ensures next { MovesOn self.old.next self.new.next result }
    {
        let Some(k) = self.due() else {
            // None waits, so until one is woken there is nothing to walk over.
            self.bound = 0;
            return None;
        };
        self.waiting[k] = false;
        self.next = (k + 1) % NUMBERS;
        Some(k as u16)
    }

    // The round goes on after the number last taken.
    fn clear(&mut self)
        ensures none { NoneWaits (marked self.new.waiting) }
        ensures is_round { IsRound (round self.new) }
        ensures next { self.new.next ≡ self.old.next }
    {
        self.waiting = no_marks();
        self.bound = 0;
    }
}
