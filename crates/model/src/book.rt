ghost use Rattle.std.specs.Prelude.{◌≡◌, min, List, length};
ghost use Rattle.model.specs.Rows.{Row, AllProper, listed, row_at, workable, on};
ghost use Rattle.model.specs.Strikes.{Strikes};
ghost use Rattle.model.specs.View.{at};

use crate::boxes::FlagBox;
use crate::strike::Strike;

// A book means a list of rows. They are numbered from 0, and only the first 65,535 have a number. No call alters the book.
pub trait Book {
    ghost rows: { Self → List Row };

    // The number of rows, or 65,535 when there are more.
    fn count(&self) -> u16
        ensures { result ≡ length (listed (rows self.now)) };

    // Whether the number is below the count and the row has the flag.
    fn touches(&self, row: u16, flag: usize) -> bool
        ensures { result ≡ on (row_at (rows self.now) row) flag };

    // Leaves each flag of the row exactly the values that have support, and every other flag as it is; at or above the count it alters
    // nothing and answers unchanged.
    fn strike(&self, row: u16, b: &mut FlagBox) -> Strike
        ensures { Strikes (row_at (rows self.now) row) (at b.old) (at b.new) result };

    ghost proper: { (s : Self) → AllProper (rows s) };
}

// The number of rows that a scheduler can hold.
pub fn workable_count<B: Book>(book: &B) -> u16
    ensures { result ≡ length (workable (B.Book.rows book.now)) }
{
    capped(book.count())
}

// A number of rows, or 1,024 when there are more.
fn capped(count: u16) -> u16
    ensures { result ≡ min count 1024 }
{
    count.min(1024)
}
