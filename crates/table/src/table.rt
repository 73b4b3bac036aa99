ghost use Rattle.std.specs.Prelude.{◌≡◌, ◌≤◌, false, vec_len, vec_capacity};
ghost use Rattle.model.specs.Refusals.{some_large, some_twice};
ghost use Rattle.table.specs.Relations.{flags_of};

use crate::relation::Relation;

mod adding;
mod striking;

const MOST_ROWS: usize = 512;

// A row that a table holds.
#[derive(Clone, Copy)]
struct TableRow {
    relation: Relation<u8>,
    ghost small: { some_large (flags_of relation) ≡ false },
    ghost different: { some_twice (flags_of relation) ≡ false },
}

// A book of at most 512 relations. Memory for all of them is taken when it is made, so that adding one never asks for any.
#[derive(Drop)]
pub struct Table {
    rows: Vec<TableRow>,
    ghost few: { vec_len rows ≤ 512 },
    ghost room: { 512 ≤ vec_capacity rows },
}
