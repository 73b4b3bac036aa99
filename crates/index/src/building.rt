ghost use Rattle.std.specs.Prelude.{◌≡◌, List, map, length, IfOk, OnOk};
ghost use Rattle.std.specs.Iterator.{Drains, IsFinite};
ghost use Rattle.std.specs.List.{range_with_len};
ghost use Rattle.ragged.specs.Lists.{lists_of};
ghost use Rattle.model.specs.Rows.{on, row_at, workable};
ghost use Rattle.index.specs.Indexes.{those};
ghost use Rattle.index.specs.Gathering.{ClosesWith};

use model::book::{Book, workable_count};
use ragged::Lists;
use std::alloc::{AllocError, Global};

// Closes the open list with these items at its end.
fn close_with<T: Drop, I: Iterator<Item = T> + Drop>(
    lists: &mut Lists<T>,
    items: I,
) -> Result<(), AllocError>
    requires can { I.can_next items }
    requires ends { IsFinite (I.remaining items) }
    ensures { OnOk result ((xs : List T) × Drains I.next_gives items xs × ClosesWith xs lists.old lists.new) }
{
    for item in items {
        lists.push(item)?;
    }
    lists.close()
}

// For each flag the rows that have it.
pub(crate) fn rows_by_flag<B: Book>(heap: Global, book: &B) -> Result<Lists<u16>, AllocError>
    ensures { IfOk result (λ s. lists_of s ≡ map (λ f. those (λ k. on (row_at (B.Book.rows book.now) k) f) (length (workable (B.Book.rows book.now)))) (range_with_len 0 256)) }
{
    let count = workable_count(book);
    let mut lists = Lists::new(heap, 256, 0)?;
    for flag in 0..256 {
        close_with(
            &mut lists,
            (0..count).filter(|row| book.touches(*row, flag)),
        )?;
    }
    Ok(lists)
}

// For each row its flags.
pub(crate) fn flags_by_row<B: Book>(heap: Global, book: &B) -> Result<Lists<u8>, AllocError>
    ensures { IfOk result (λ s. lists_of s ≡ map (λ k. those (on (row_at (B.Book.rows book.now) k)) 256) (range_with_len 0 (length (workable (B.Book.rows book.now))))) }
{
    let count = workable_count(book);
    let mut lists = Lists::new(heap, usize::from(count), 0)?;
    for row in 0..count {
        close_with(
            &mut lists,
            (0..=u8::MAX).filter(|flag| book.touches(row, usize::from(*flag))),
        )?;
    }
    Ok(lists)
}
