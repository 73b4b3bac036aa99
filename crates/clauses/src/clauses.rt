ghost use Rattle.std.specs.Prelude.{◌≡◌, ◌≤◌, true, length};
ghost use Rattle.ragged.specs.Lists.{lists_of, open_of, list_room, item_room};
ghost use Rattle.ragged.specs.Parts.{total_length};
ghost use Rattle.clauses.specs.Refusals.{all_sound};

use crate::literal::Literal;
use ragged::Lists;

mod adding;
mod striking;

// A book of at most 512 clauses, with at most 2,048 literals in all. Memory for all of them is taken when it is made, so that adding a clause
// never asks for any.
#[derive(Drop)]
pub struct Clauses {
    lists: Lists<Literal<u8>>,
    ghost few: { length (lists_of lists) ≤ 512 },
    ghost short: { total_length (lists_of lists) ≤ 2048 },
    ghost closed: { length (open_of lists) ≡ 0 },
    ghost clause_room: { 512 ≤ list_room lists },
    ghost literal_room: { 2048 ≤ item_room lists },
    ghost sound: { all_sound (lists_of lists) ≡ true },
}
