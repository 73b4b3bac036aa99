ghost use Rattle.std.specs.Prelude.{◌≡◌, ℕ, Bool, if◌then◌else◌, nat_lt};
ghost use Rattle.model.specs.Waiting.{Wakes, Takes, NoneWaits};
ghost use Rattle.schedulers.specs.Lanes.{among, Tells, in_lanes, LaneWakes, LaneTakes, LaneClears};
ghost use Rattle.schedulers.specs.Bounds.{bounded_either};

use model::scheduler::Scheduler;

// The two lanes, of which contracts speak.
#[derive(Clone, Copy, PartialEq, Eq, Debug)]
pub enum Lane {
    First,
    Second,
}

// A scheduler made of two, one for each lane: the first lane is for the numbers below a boundary, the second for the rest. The first lane is
// served first.
#[derive(Drop)]
pub struct Lanes<A, B> {
    pub first: A,
    pub second: B,
    pub boundary: u16,
}

// Takes numbers until one comes that belongs in the lane. The others sit in the wrong lane: they do not count as waiting, and are passed
// over.
fn take_where<S: Scheduler, F: Fn(u16) -> bool>(scheduler: &mut S, belongs: F) -> Option<u16>
    requires { F.IsAlwaysCallable belongs }
    ensures { (lane : ℕ → Bool) → Tells (F.post belongs) lane → Takes (among lane (S.Scheduler.waits scheduler.old)) (among lane (S.Scheduler.waits scheduler.new)) result }
{
    while let Some(row) = scheduler.take() {
        if belongs(row) {
            return Some(row);
        }
    }
    None
}

impl<A: Scheduler, B: Scheduler> Lanes<A, B> {
    // Lanes over two schedulers, whatever waits in them already.
    pub fn new(first: A, second: B, boundary: u16) -> Lanes<A, B>
        ensures first { result.first ≡ first }
        ensures second { result.second ≡ second }
        ensures boundary { result.boundary ≡ boundary }
        ensures waits { (k : ℕ) → in_lanes A.Scheduler.waits B.Scheduler.waits result k ≡ (if nat_lt k boundary then A.Scheduler.waits first k else B.Scheduler.waits second k) }
    {
        Lanes {
            first,
            second,
            boundary,
        }
    }
}

impl<A: Scheduler, B: Scheduler> Scheduler for Lanes<A, B> {
    ghost waits = { in_lanes A.Scheduler.waits B.Scheduler.waits };

    ghost bounded = { λ lanes. bounded_either (A.Scheduler.waits lanes.first) (B.Scheduler.waits lanes.second) (A.Scheduler.bounded lanes.first) (B.Scheduler.bounded lanes.second) (λ k. nat_lt k lanes.boundary) };

    // The number goes to the scheduler of its lane; the other one stays as it is.
    fn wake(&mut self, row: u16) -> bool
        ensures wakes { Wakes row self.old self.new (in_lanes A.Scheduler.waits B.Scheduler.waits self.old) (in_lanes A.Scheduler.waits B.Scheduler.waits self.new) result }
        ensures lanes { LaneWakes A.Scheduler.waits B.Scheduler.waits row self.old self.new result }
    {
        if row < self.boundary {
            self.first.wake(row)
        } else {
            self.second.wake(row)
        }
    }

    // Serves the first lane where a number waits there, and else the second.
    fn take(&mut self) -> Option<u16>
        ensures takes { Takes (in_lanes A.Scheduler.waits B.Scheduler.waits self.old) (in_lanes A.Scheduler.waits B.Scheduler.waits self.new) result }
        ensures lanes { LaneTakes A.Scheduler.waits B.Scheduler.waits self.old self.new result }
    {
        let boundary = self.boundary;
        match take_where(&mut self.first, |row| row < boundary) {
            Some(row) => Some(row),
            None => take_where(&mut self.second, |row| row >= boundary),
        }
    }

    fn clear(&mut self)
        ensures none { NoneWaits (in_lanes A.Scheduler.waits B.Scheduler.waits self.new) }
        ensures lanes { LaneClears A.Scheduler.waits B.Scheduler.waits self.old self.new }
    {
        self.first.clear();
        self.second.clear();
    }
}
