ghost use Rattle.std.specs.Prelude.{◌≡◌, ◌<◌, false, length, MatchOption};
ghost use Rattle.model.specs.Refusals.{some_twice};
ghost use Rattle.model.specs.Rows.{no_row, row_at};
ghost use Rattle.clauses.specs.Books.{rows_of};
ghost use Rattle.clauses.specs.Literals.{flags_of, row_of};
ghost use Rattle.clauses.specs.Proper;

use super::Clauses;
use crate::clause::strike_clause;
use crate::literal::{Literal, names};
use model::book::Book;
use model::boxes::FlagBox;
use model::strike::Strike;

impl Clauses {
    // The clause of a number.
    fn clause(&self, number: u16) -> Option<&[Literal<u8>]>
        ensures { MatchOption result (row_at (rows_of self.now) number ≡ no_row) (λ s. (row_at (rows_of self.now) number ≡ row_of s.now) × (0 < length s.now) × (some_twice (flags_of s.now) ≡ false)) }
    {
        self.lists.get(number as usize)
    }
}

impl Book for Clauses {
    ghost rows = { rows_of };

    ghost proper = { λ c. Proper.proper c };

    // Every clause has a number.
    fn count(&self) -> u16 {
        self.lists.len() as u16
    }

    fn touches(&self, row: u16, flag: usize) -> bool {
        self.clause(row)
            .is_some_and(|literals| names(literals, flag))
    }

    fn strike(&self, row: u16, b: &mut FlagBox) -> Strike {
        match self.clause(row) {
            Some(literals) => strike_clause(literals, b),
            None => Strike::Unchanged,
        }
    }
}
