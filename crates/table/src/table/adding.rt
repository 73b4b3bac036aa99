ghost use Rattle.std.specs.Prelude.{◌≡◌, [], length, Some, None, MatchResult};
ghost use Rattle.model.specs.declared.refusal.MakeRefusal.TheVariants.{Memory};
ghost use Rattle.model.specs.Refusals.{some_twice};
ghost use Rattle.table.specs.Refusals.{refusal};
ghost use Rattle.table.specs.Relations.{flags_of};
ghost use Rattle.table.specs.Tables.{rows_of, Added};

use super::{MOST_ROWS, Table, TableRow};
use crate::relation::Relation;
use model::refusal::{AddRefusal, MakeRefusal};
use std::alloc::Global;

impl Table {
    // A table without a row, with the memory for all that it may hold.
    pub fn new(heap: Global) -> Result<Table, MakeRefusal>
        ensures { MatchResult result (λ t. rows_of t ≡ []) (λ e. e ≡ Memory) }
    {
        let rows = Vec::with_capacity(heap, MOST_ROWS)?;
        Ok(Table { rows })
    }

    // Adds a row after the others, or says why not: a flag above 255, a flag that stands twice in the row, a full table, looked at in this
    // order.
    pub fn add(&mut self, relation: Relation<usize>) -> Result<(), AddRefusal>
        ensures { Added (refusal (length (rows_of self.old)) relation) relation self.old self.new result }
    {
        self.rows.push_reserved(row_for(relation, self.rows.len())?);
        Ok(())
    }
}

// The row to add to a table of so many rows, unless there is a reason to refuse it.
fn row_for(relation: Relation<usize>, count: usize) -> Result<TableRow, AddRefusal>
    ensures { MatchResult result (λ row. (refusal count relation ≡ None) × (row.relation ≡ relation)) (λ e. refusal count relation ≡ Some e) }
{
    let relation = Relation::<u8>::try_from(relation)?;
    if names_twice(relation) {
        return Err(AddRefusal::Twice);
    }
    if count >= MOST_ROWS {
        return Err(AddRefusal::Full);
    }
    Ok(TableRow { relation })
}

// Whether some flag stands there twice.
fn names_twice(relation: Relation<u8>) -> bool
    ensures { result ≡ some_twice (flags_of relation) }
{
    let (x, y, third) = relation.places();
    x == y || third.is_some_and(|z| z == x || z == y)
}
