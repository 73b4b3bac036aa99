// Waking the rows that may have lost support.
ghost use Rattle.std.specs.Prelude.{◌≡◌, ℕ, ◌||◌, [], ◌∷◌, None};
ghost use Rattle.model.specs.View.{at};
ghost use Rattle.index.specs.Indexes.{rows_with};
ghost use Rattle.indexed.specs.Waking.{WokenEach, WokenFor, CaughtUp, left_out, woken_at};

use index::Index;
use model::boxes::FlagBox;
use model::scheduler::Scheduler;

// Whether the number is the one that is left out.
fn left_out(but: Option<u16>, row: u16) -> bool
    ensures { result ≡ left_out but row }
{
    but == Some(row)
}

// Wakes a row, unless it is the one that is left out.
fn wake_unless<S: Scheduler>(scheduler: &mut S, but: Option<u16>, row: u16)
    ensures { WokenEach but (row ∷ []) (S.Scheduler.waits scheduler.old) (S.Scheduler.waits scheduler.new) }
{
    if !left_out(but, row) {
        scheduler.wake(row);
    }
}

// Wakes the rows of a list but one.
fn wake_each<S: Scheduler>(scheduler: &mut S, but: Option<u16>, rows: &[u16])
    ensures { WokenEach but rows.now (S.Scheduler.waits scheduler.old) (S.Scheduler.waits scheduler.new) }
{
    for row in rows {
        wake_unless(scheduler, but, *row);
    }
}

// Wakes the rows that have the flag.
pub(crate) fn wake_flag<S: Scheduler>(index: &Index, scheduler: &mut S, flag: u8)
    ensures { WokenEach None (rows_with index.now flag) (S.Scheduler.waits scheduler.old) (S.Scheduler.waits scheduler.new) }
{
    wake_each(scheduler, None, index.rows_with(flag));
}

// Wakes the rows that have the flag, but for the given one, if the flag lost a value.
fn wake_if_lost<S: Scheduler>(
    index: &Index,
    scheduler: &mut S,
    before: &FlagBox,
    after: &FlagBox,
    row: u16,
    flag: u8,
)
    ensures { (k : ℕ) → S.Scheduler.waits scheduler.new k ≡ (woken_at index.now (at before.now) (at after.now) row k flag || S.Scheduler.waits scheduler.old k) }
{
    if before.get(flag) != after.get(flag) {
        wake_each(scheduler, Some(row), index.rows_with(flag));
    }
}

// Of the flags of a row that was struck, those that lost a value wake the other rows that have them. The row itself has support already.
pub(crate) fn wake_losses<S: Scheduler>(
    index: &Index,
    scheduler: &mut S,
    before: &FlagBox,
    after: &FlagBox,
    row: u16,
    flags: &[u8],
)
    ensures { WokenFor index.now (at before.now) (at after.now) row flags.now (S.Scheduler.waits scheduler.old) (S.Scheduler.waits scheduler.new) }
{
    for flag in flags {
        wake_if_lost(index, scheduler, before, after, row, *flag);
    }
}

// Copies the sets of some flags.
pub(crate) fn catch_up(seen: &mut FlagBox, b: &FlagBox, flags: &[u8])
    ensures { CaughtUp flags.now (at b.now) (at seen.old) (at seen.new) }
{
    for flag in flags {
        seen.put(*flag, b.get(*flag));
    }
}
