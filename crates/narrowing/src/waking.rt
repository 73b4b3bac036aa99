// Waking the rows that may have lost support.
ghost use Rattle.narrowing.specs.Waking.{WokenAll, WokenOne, WokenAt, WokenFor, WokenNear};

use model::book::{Book, workable_count};
use model::scheduler::Scheduler;

// Wakes every row.
pub fn wake_all<B: Book, S: Scheduler>(book: &B, scheduler: &mut S)
    ensures { WokenAll (B.Book.rows book.now) (S.Scheduler.waits scheduler.old) (S.Scheduler.waits scheduler.new) }
{
    let count = workable_count(book);
    for row in 0..count {
        scheduler.wake(row);
    }
}

// Wakes the row if it has the flag.
fn wake_if_touching<B: Book, S: Scheduler>(book: &B, scheduler: &mut S, row: u16, flag: usize)
    ensures { WokenOne (B.Book.rows book.now) row flag (S.Scheduler.waits scheduler.old) (S.Scheduler.waits scheduler.new) }
{
    if book.touches(row, flag) {
        scheduler.wake(row);
    }
}

// Wakes the rows that have the flag.
fn wake_touching<B: Book, S: Scheduler>(book: &B, scheduler: &mut S, flag: usize)
    ensures { WokenAt (B.Book.rows book.now) flag (S.Scheduler.waits scheduler.old) (S.Scheduler.waits scheduler.new) }
{
    for row in 0..workable_count(book) {
        wake_if_touching(book, scheduler, row, flag);
    }
}

// Wakes the rows that have the flag if the given row has it.
fn wake_sharing<B: Book, S: Scheduler>(book: &B, scheduler: &mut S, row: u16, flag: usize)
    ensures { WokenFor (B.Book.rows book.now) row flag (S.Scheduler.waits scheduler.old) (S.Scheduler.waits scheduler.new) }
{
    if book.touches(row, flag) {
        wake_touching(book, scheduler, flag);
    }
}

// Wakes the rows that share a flag with the given one.
pub(crate) fn wake_neighbours<B: Book, S: Scheduler>(book: &B, scheduler: &mut S, row: u16)
    ensures { WokenNear (B.Book.rows book.now) row (S.Scheduler.waits scheduler.old) (S.Scheduler.waits scheduler.new) }
{
    for flag in 0..256 {
        wake_sharing(book, scheduler, row, flag);
    }
}
