ghost use Rattle.std.specs.Prelude.{◌≡◌, ℕ, ◌<◌, Bool, true, List, Some, None, ◌≢◌};
ghost use Rattle.model.specs.Rows.{elem};
ghost use Rattle.model.specs.Waiting.{Bounded, NoneWaits};
ghost use Rattle.schedulers.specs.Rings.{InOrder, RingOrder};
ghost use Rattle.schedulers.specs.Turns.{Call, line_after, turn, woken_since, began, QueueOrder};

// The proof of the law stands behind this function.
fn ring_order()
    ensures { RingOrder }
{}

// What a ring seeks is the waiting number that comes first, going round, and is none exactly when none waits.
pub fn ring_order_stands()
    ensures { (waits : ℕ → Bool) (start : ℕ) → Bounded waits → start < 1024 → InOrder waits start }
{
    ring_order();
}

// The proof of the law stands behind this function.
fn queue_order()
    ensures { QueueOrder }
{}

// Whatever calls were made, a number stands in a queue's line exactly when it was woken since it was last taken or cleared. The number
// whose turn it is waits, and every other that waits began later. It is nobody's turn only when none waits.
pub fn queue_order_stands()
    ensures waiting { (past : List Call) (k : ℕ) → elem k (line_after past) ≡ woken_since past k }
    ensures served { (past : List Call) (k : ℕ) → turn past ≡ Some k → woken_since past k ≡ true }
    ensures longest { (past : List Call) (k j : ℕ) → turn past ≡ Some k → woken_since past j ≡ true → (j ≢ k) → began past k < began past j }
    ensures none { (past : List Call) → turn past ≡ None → NoneWaits (woken_since past) }
{
    queue_order();
}
