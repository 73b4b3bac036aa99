ghost use Rattle.std.specs.Prelude.{◌≡◌, length, MatchOption};
ghost use Rattle.model.specs.Rows.{no_row, row_at};
ghost use Rattle.model.specs.View.{at};
ghost use Rattle.table.specs.Narrowing.{with_sets, Tells, Narrows};
ghost use Rattle.table.specs.Relations.{parts, row_of};
ghost use Rattle.table.specs.Tables.{rows_of};
ghost use Rattle.table.specs.Proper;

use super::{Table, TableRow};
use crate::decide::decide;
use crate::relation::Relation;
use model::book::Book;
use model::boxes::FlagBox;
use model::domain::Domain;
use model::strike::Strike;

// Gives each flag the set at its place.
fn put_sets(relation: Relation<u8>, sets: Relation<Domain>, b: &mut FlagBox)
    ensures { at b.new ≡ with_sets (parts relation) (parts sets) (at b.old) }
{
    let (x, y, z) = relation.places();
    let (set_x, set_y, set_z) = sets.places();
    b.put(x, set_x);
    b.put(y, set_y);
    if let (Some(flag), Some(set)) = (z, set_z) {
        b.put(flag, set);
    }
}

// What a change of the sets answers. A row leaves all its flags empty or none.
fn verdict(before: Relation<Domain>, after: Relation<Domain>) -> Strike
    ensures { Tells result before after }
{
    let (first, _, _) = after.places();
    if first == Domain::Empty {
        Strike::Dead
    } else if after == before {
        Strike::Unchanged
    } else {
        Strike::Changed
    }
}

// Leaves the flags what the relation leaves of their sets.
fn narrow(relation: Relation<u8>, b: &mut FlagBox) -> Strike
    ensures { Narrows relation (at b.old) (at b.new) result }
{
    let before = relation.sets_in(b);
    let after = decide(before);
    put_sets(relation, after, b);
    verdict(before, after)
}

impl Table {
    // The row of a number.
    fn row(&self, number: u16) -> Option<&TableRow>
        ensures { MatchOption result (row_at (rows_of self.now) number ≡ no_row) (λ x. row_at (rows_of self.now) number ≡ row_of x.now.relation) }
    {
        self.rows.get(usize::from(number))
    }
}

impl Book for Table {
    ghost rows = { rows_of };

    ghost proper = { λ t. Proper.proper t };

    // Every row has a number.
    fn count(&self) -> u16 {
        self.rows.len() as u16
    }

    fn touches(&self, row: u16, flag: usize) -> bool {
        self.row(row).is_some_and(|r| r.relation.has(flag))
    }

    fn strike(&self, row: u16, b: &mut FlagBox) -> Strike {
        match self.row(row) {
            Some(r) => narrow(r.relation, b),
            None => Strike::Unchanged,
        }
    }
}
