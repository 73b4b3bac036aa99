// Two books as one.
#![tactic(auto)]

ghost use Rattle.std.specs.Prelude.{◌≡◌, ◌+◌, min, ◌++◌};
ghost use Rattle.model.specs.Rows.{row_at};
ghost use Rattle.joined.specs.Places.{row_in};
ghost use Rattle.joined.specs.Proper.{all_proper};

use model::book::Book;
use model::boxes::FlagBox;
use model::strike::Strike;
use place::{Place, place_of};

mod place;

// A book made of any two: its rows are the first's, followed by the second's. It is a book itself, so joined books can be joined again.
#[derive(Drop)]
pub struct Joined<A: Book, B: Book> {
    pub first: A,
    pub second: B,
}

// The sum, or 65,535 when it is more.
fn total(first: u16, second: u16) -> u16
    ensures { result ≡ min (first + second) 65535 }
{
    first.saturating_add(second)
}

impl<A: Book, B: Book> Joined<A, B> {
    // Which of the two books has the row of a number.
    fn locate(&self, row: u16) -> Option<Place>
        ensures { row_at (A.Book.rows self.now.first ++ B.Book.rows self.now.second) row ≡ row_in (A.Book.rows self.now.first) (B.Book.rows self.now.second) result }
    {
        place_of(row, self.first.count())
    }
}

impl<A: Book, B: Book> Book for Joined<A, B> {
    ghost rows = { λ j. A.Book.rows j.first ++ B.Book.rows j.second };

    ghost proper = { λ j. all_proper (A.Book.rows j.first) (B.Book.rows j.second) (A.Book.proper j.first) (B.Book.proper j.second) };

    fn count(&self) -> u16 {
        total(self.first.count(), self.second.count())
    }

    fn touches(&self, row: u16, flag: usize) -> bool {
        match self.locate(row) {
            Some(Place::First(number)) => self.first.touches(number, flag),
            Some(Place::Second(number)) => self.second.touches(number, flag),
            None => false,
        }
    }

    fn strike(&self, row: u16, b: &mut FlagBox) -> Strike {
        match self.locate(row) {
            Some(Place::First(number)) => self.first.strike(number, b),
            Some(Place::Second(number)) => self.second.strike(number, b),
            None => Strike::Unchanged,
        }
    }
}
