// The index of a book: at each flag the rows that have it, and at each row its flags. It is made once, so that nobody has to ask every row
// whether it has a flag.
#![tactic(auto)]

ghost use Rattle.std.specs.Prelude.{◌≡◌, [], MatchResult, slice_index_or};
ghost use Rattle.model.specs.declared.refusal.MakeRefusal.TheVariants.{Memory};
ghost use Rattle.ragged.specs.Lists.{lists_of};
ghost use Rattle.index.specs.Indexes.{rows_with, flags_in, Indexes};

use building::{flags_by_row, rows_by_flag};
use model::book::Book;
use model::refusal::MakeRefusal;
use ragged::Lists;
use std::alloc::Global;

mod building;
pub mod laws;

pub use model::book::workable_count;

#[derive(Drop)]
pub struct Index {
    // at each flag the rows that have it
    rows: Lists<u16>,
    // at each row its flags
    flags: Lists<u8>,
}

impl Index {
    // The index of a book, with all the memory that it needs. Of a book of more than 1,024 rows the first 1,024 are listed.
    pub fn new<B: Book>(heap: Global, book: &B) -> Result<Index, MakeRefusal>
        ensures { MatchResult result (λ i. Indexes (B.Book.rows book.now) i) (λ e. e ≡ Memory) }
    {
        let rows = rows_by_flag(heap, book)?;
        let flags = flags_by_row(heap, book)?;
        Ok(Index { rows, flags })
    }

    // The rows that are listed at a flag.
    pub fn rows_with(&self, flag: u8) -> &[u16]
        ensures { result.now ≡ rows_with self.now flag }
    {
        list_at(&self.rows, usize::from(flag))
    }

    // The flags that are listed at a row.
    pub fn flags_in(&self, row: u16) -> &[u8]
        ensures { result.now ≡ flags_in self.now row }
    {
        list_at(&self.flags, usize::from(row))
    }
}

// What is listed at a key.
fn list_at<T: Drop>(lists: &Lists<T>, key: usize) -> &[T]
    ensures { result.now ≡ slice_index_or (lists_of lists.now) key [] }
{
    lists.get(key).unwrap_or(&[])
}
