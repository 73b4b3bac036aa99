// A book with its index.
ghost use Rattle.std.specs.Prelude.{◌≡◌, MatchResult};
ghost use Rattle.model.specs.Boxes.{◌⊆◌};
ghost use Rattle.model.specs.Facts.{cut};
ghost use Rattle.model.specs.Rows.{workable};
ghost use Rattle.model.specs.View.{at};
ghost use Rattle.model.specs.Waiting.{NoneWaits};
ghost use Rattle.model.specs.declared.refusal.MakeRefusal.TheVariants.{Memory};
ghost use Rattle.index.specs.Indexes.{Indexes};
ghost use Rattle.narrowing.specs.Narrowing.{Narrowed};
ghost use Rattle.indexed.specs.Narrowing.{AtRest};

use crate::{narrow, narrow_to};
use index::Index;
use model::book::Book;
use model::boxes::FlagBox;
use model::fact::Fact;
use model::refusal::MakeRefusal;
use model::scheduler::Scheduler;
use narrowing::Verdict;
use std::alloc::Global;
use std::marker::Model;

// A book and the index that was made of it. Neither changes, so the index stays the book's. Contracts see the book alone.
#[derive(Drop)]
pub struct Indexed<B: Book> {
    book: B,
    index: Index,
}

impl<B: Book> Model for Indexed<B> {
    ghost Value = { B };

    ghost view = { λ s. s.book };

    ghost invariant = { λ s. Indexes (B.Book.rows s.book) s.index };
}

impl<B: Book + Drop> Indexed<B> {
    // Makes the index of a book, with all the memory that it needs.
    pub fn new(heap: Global, book: B) -> Result<Indexed<B>, MakeRefusal>
        ensures { MatchResult result (λ made. made ≡ book) (λ e. e ≡ Memory) }
    {
        let index = Index::new(heap, &book)?;
        Ok(Indexed { book, index })
    }
}

impl<B: Book> Indexed<B> {
    // The book.
    pub fn book(&self) -> &B
        ensures { result.now ≡ self.now }
    {
        &self.book
    }

    // Leaves the box the largest consistent one inside it, or says that this is dead; the box then lies between the two. That holds for
    // every scheduler and whatever already waited in it; none waits afterwards. A scheduler holds numbers below 1,024, so of a longer book
    // only its first 1,024 rows count.
    pub fn narrow<S: Scheduler>(&self, scheduler: &mut S, b: &mut FlagBox) -> Verdict
        ensures down { at b.new ⊆ at b.old }
        ensures quiet { NoneWaits (S.Scheduler.waits scheduler.new) }
        ensures narrowed { Narrowed (workable (B.Book.rows self.now)) (at b.old) (at b.new) result }
    {
        narrow(&self.book, &self.index, scheduler, b)
    }

    // Makes a fact true, and narrows a box that was alive and consistent from there. Only the rows that have the fact's flag can have lost
    // support, so only they are woken at the start.
    pub fn narrow_to<S: Scheduler>(&self, scheduler: &mut S, b: &mut FlagBox, fact: Fact) -> Verdict
        ensures down { at b.new ⊆ cut (at b.old) fact.flag fact.value }
        ensures quiet { NoneWaits (S.Scheduler.waits scheduler.new) }
        ensures narrowed { AtRest (B.Book.rows self.now) (at b.old) → Narrowed (workable (B.Book.rows self.now)) (cut (at b.old) fact.flag fact.value) (at b.new) result }
    {
        narrow_to(&self.book, &self.index, scheduler, b, fact)
    }
}
