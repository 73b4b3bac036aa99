ghost use Rattle.model.specs.View.{at};
ghost use Rattle.model.specs.Facts.{cut};
ghost use Rattle.model.specs.Rows.{workable};
ghost use Rattle.narrowing.specs.Narrowing.{Narrowed};
ghost use Rattle.stories.specs.Telling.{Started};
ghost use Rattle.gateway.specs.Telling.{Told};

use model::book::Book;
use model::boxes::FlagBox;
use model::fact::Fact;
use model::scheduler::Scheduler;
use narrowing::{Verdict, narrow};
use stories::telling::put_back;

// The largest box under no facts, or none where the rules contradict one another: then it is dead.
pub fn start<B: Book, S: Scheduler>(book: &B, scheduler: &mut S) -> Option<FlagBox>
    ensures { Started (workable (B.Book.rows book.now)) result }
{
    let mut b = FlagBox::all_open();
    match narrow(book, scheduler, &mut b) {
        Verdict::Alive => Some(b),
        Verdict::Dead => None,
    }
}

// Makes a fact true and narrows from there.
fn narrow_cut<B: Book, S: Scheduler>(
    book: &B,
    scheduler: &mut S,
    b: &mut FlagBox,
    fact: Fact,
) -> Verdict
    ensures { Narrowed (workable (B.Book.rows book.now)) (cut (at b.old) fact.flag fact.value) (at b.new) result }
{
    b.cut(fact.flag, fact.value);
    narrow(book, scheduler, b)
}

// Tells one fact more to the largest box under the facts so far. Where it fits, the box is then the largest under all of them; where it
// contradicts them, the box is as before.
pub fn tell<B: Book, S: Scheduler>(
    book: &B,
    scheduler: &mut S,
    b: &mut FlagBox,
    fact: Fact,
) -> Verdict
    ensures { Told (workable (B.Book.rows book.now)) (at b.old) fact.flag fact.value (at b.new) result }
{
    let before = *b;
    let verdict = narrow_cut(book, scheduler, b, fact);
    put_back(b, before, verdict);
    verdict
}
