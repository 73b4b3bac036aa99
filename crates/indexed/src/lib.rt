// Narrowing by the index of a book: striking rows until every value that is left has support, and waking only those that may have lost it.
#![tactic(auto)]

ghost use Rattle.model.specs.Facts.{cut};
ghost use Rattle.model.specs.View.{at};
ghost use Rattle.index.specs.Indexes.{Indexes};
ghost use Rattle.indexed.specs.Narrowing.{Narrows, Settled, Started};

use index::Index;
use model::book::Book;
use model::boxes::FlagBox;
use model::fact::Fact;
use model::scheduler::Scheduler;
use model::strike::Strike;
use narrowing::{Verdict, wake_all};
use waking::{catch_up, wake_flag, wake_losses};

mod book;
pub mod laws;
mod waking;

pub use book::Indexed;

// Strikes the rows that the scheduler hands out until none waits, and stops as soon as a row dies; none waits afterwards. It never adds a
// value, and it narrows where the index is the book's, the box is alive and each row waits or supports its values already.
fn settle<B: Book, S: Scheduler>(
    book: &B,
    index: &Index,
    scheduler: &mut S,
    b: &mut FlagBox,
) -> Verdict
    ensures { Narrows (Started (B.Book.rows book.now) index.now (S.Scheduler.waits scheduler.old) (at b.old)) (B.Book.rows book.now) (S.Scheduler.waits scheduler.new) (at b.old) (at b.new) result }
{
    // The box as it was when rows were last woken: what it has more than the box has now was lost since.
    let mut seen = *b;
    'waking: loop {
        let changed = 'striking: loop {
            let Some(row) = scheduler.take() else {
                break 'waking Verdict::Alive;
            };
            match book.strike(row, b) {
                Strike::Dead => {
                    scheduler.clear();
                    break 'waking Verdict::Dead;
                }
                Strike::Changed => break 'striking row,
                Strike::Unchanged => {}
            }
        };
        let flags = index.flags_in(changed);
        wake_losses(index, scheduler, &seen, b, changed, flags);
        catch_up(&mut seen, b, flags);
    }
}

// Leaves the box the largest consistent one inside it, or says that this is dead; the box then lies between the two. That holds with the
// book's index, for every scheduler and whatever already waited in it; none waits afterwards. A scheduler holds numbers below 1,024, so of a
// longer book only its first 1,024 rows count.
pub fn narrow<B: Book, S: Scheduler>(
    book: &B,
    index: &Index,
    scheduler: &mut S,
    b: &mut FlagBox,
) -> Verdict
    ensures { Narrows (Indexes (B.Book.rows book.now) index.now) (B.Book.rows book.now) (S.Scheduler.waits scheduler.new) (at b.old) (at b.new) result }
{
    if b.is_dead() {
        scheduler.clear();
        return Verdict::Dead;
    }
    wake_all(book, scheduler);
    settle(book, index, scheduler, b)
}

// Makes a fact true, and narrows from there. In a box that was alive and consistent only the rows that have the fact's flag can have lost
// support, so only they are woken at the start.
pub fn narrow_to<B: Book, S: Scheduler>(
    book: &B,
    index: &Index,
    scheduler: &mut S,
    b: &mut FlagBox,
    fact: Fact,
) -> Verdict
    ensures { Narrows (Settled (B.Book.rows book.now) index.now (at b.old)) (B.Book.rows book.now) (S.Scheduler.waits scheduler.new) (cut (at b.old) fact.flag fact.value) (at b.new) result }
{
    match b.force(fact) {
        Strike::Dead => {
            scheduler.clear();
            Verdict::Dead
        }
        Strike::Unchanged => {
            scheduler.clear();
            Verdict::Alive
        }
        Strike::Changed => {
            wake_flag(index, scheduler, fact.flag);
            settle(book, index, scheduler, b)
        }
    }
}
