ghost use Rattle.std.specs.Prelude.{◌≡◌, ℕ, ◌<◌, ◌≤◌, false, not, ◌&&◌, [], length, nat_lt};
ghost use Rattle.model.specs.Refusals.{some_twice};
ghost use Rattle.model.specs.Rows.{elem};
ghost use Rattle.model.specs.Waiting.{Wakes, Takes, NoneWaits};
ghost use Rattle.schedulers.specs.Marks.{marked, tally};
ghost use Rattle.schedulers.specs.Queues.{line_of, joins, serves, IsLine};
ghost use Rattle.schedulers.specs.Bounds.{marked_within};

use crate::marks::{NUMBERS, no_marks};
use model::scheduler::Scheduler;

// A scheduler that gives the number that has waited longest. Waking and taking cost the same, however many wait.
#[derive(Drop)]
pub struct Queue {
    // The line stands in a circle of places, so that both its ends move without any number being moved.
    order: [u16; NUMBERS],
    // The place of the number that has waited longest.
    start: usize,
    len: usize,
    // Which numbers stand in the line, so that waking need not look for one.
    waiting: [bool; NUMBERS],
    ghost places: { length order ≡ 1024 },
    ghost marks: { length waiting ≡ 1024 },
    ghost inside: { start < 1024 },
    ghost short: { len ≤ 1024 },
    ghost members: { (k : ℕ) → marked waiting k ≡ elem k (line_of order start len) },
    ghost once: { some_twice (line_of order start len) ≡ false },
    ghost count: { tally waiting ≡ len },
}

impl Queue {
    ghost use Rattle.schedulers.specs.Lines.{line};

    // A queue in which none waits.
    pub fn new() -> Queue
        ensures { line result ≡ [] }
    {
        Queue {
            order: [0; NUMBERS],
            start: 0,
            len: 0,
            waiting: no_marks(),
        }
    }

    // The number that has waited longest.
    fn front(&self) -> Option<u16>
        ensures { result ≡ (serves (line self.now)).0 }
    {
        if self.len == 0 {
            return None;
        }
        Some(self.order[self.start])
    }

    // Whether the number may wait and does not yet.
    fn is_new(&self, row: u16) -> bool
        ensures { result ≡ (nat_lt row 1024 && not (marked self.now.waiting row)) }
    {
        (row as usize) < NUMBERS && !self.waiting[row as usize]
    }
}

impl Scheduler for Queue {
    ghost use Rattle.schedulers.specs.Lines.{line};

    ghost waits = { λ s. marked s.waiting };

    ghost bounded = { λ s k w. marked_within s.waiting 1024 k s.marks w };

    // A number that waits already keeps its place; another one goes to the end.
    fn wake(&mut self, row: u16) -> bool
        ensures wakes { Wakes row self.old self.new (marked self.old.waiting) (marked self.new.waiting) result }
        ensures is_line { IsLine (line self.new) }
        ensures line { line self.new ≡ joins (line self.old) row }
    {
        if !self.is_new(row) {
            return (row as usize) < NUMBERS;
        }
        self.order[(self.start + self.len) % NUMBERS] = row;
        self.len += 1;
        self.waiting[row as usize] = true;
        true
    }

    // The first of the line is taken.
    fn take(&mut self) -> Option<u16>
        ensures takes { Takes (marked self.old.waiting) (marked self.new.waiting) result }
        ensures is_line { IsLine (line self.old) × IsLine (line self.new) }
        ensures line { (result, line self.new) ≡ serves (line self.old) }
    {
        let row = self.front()?;
        self.start = (self.start + 1) % NUMBERS;
        self.len -= 1;
        self.waiting[row as usize] = false;
        Some(row)
    }

    fn clear(&mut self)
        ensures none { NoneWaits (marked self.new.waiting) }
        ensures line { line self.new ≡ [] }
    {
        self.waiting = no_marks();
        self.len = 0;
    }
}
