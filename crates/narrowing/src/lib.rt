// Narrowing: striking rows until every value that is left has support from every row.
#![tactic(auto)]

ghost use Rattle.model.specs.View.{at};
ghost use Rattle.model.specs.Rows.{workable};
ghost use Rattle.narrowing.specs.Narrowing.{Settled, Narrowed};

use model::book::Book;
use model::boxes::FlagBox;
use model::scheduler::Scheduler;
use model::strike::Strike;
use waking::wake_neighbours;

mod waking;

pub use waking::wake_all;

// What narrowing came to: every flag has a value left, or some flag has none.
#[derive(Clone, Copy, PartialEq, Eq, Debug)]
pub enum Verdict {
    Alive,
    Dead,
}

// Strikes the rows that the scheduler hands out until none waits, and stops as soon as a row dies. It never adds a value, and it narrows
// where the box is alive and each row waits or supports its values already.
fn settle<B: Book, S: Scheduler>(book: &B, scheduler: &mut S, b: &mut FlagBox) -> Verdict
    ensures { Settled (workable (B.Book.rows book.now)) (S.Scheduler.waits scheduler.old) (at b.old) (at b.new) result }
{
    'waking: loop {
        let changed = 'striking: loop {
            let Some(row) = scheduler.take() else {
                break 'waking Verdict::Alive;
            };
            match book.strike(row, b) {
                Strike::Dead => break 'waking Verdict::Dead,
                Strike::Changed => break 'striking row,
                Strike::Unchanged => {}
            }
        };
        wake_neighbours(book, scheduler, changed);
    }
}

// Leaves the box the largest consistent one inside it, whatever the scheduler and whatever already waited in it, or says that this is
// dead; the box then lies between the two. A scheduler holds numbers below 1,024, so of a longer book only its first 1,024 rows count.
pub fn narrow<B: Book, S: Scheduler>(book: &B, scheduler: &mut S, b: &mut FlagBox) -> Verdict
    ensures { Narrowed (workable (B.Book.rows book.now)) (at b.old) (at b.new) result }
{
    if b.is_dead() {
        return Verdict::Dead;
    }
    wake_all(book, scheduler);
    settle(book, scheduler, b)
}
