// Putting the literals of a clause into the store. That is tried only with a clause that nothing speaks against; then all of it is stored, and
// none of the refusals here is met.
ghost use Rattle.clauses.specs.Stores.{Pushes, PushesAll, Puts};

use crate::literal::Literal;
use model::refusal::AddRefusal;
use ragged::Lists;

// Puts a literal into the open list.
fn push(lists: &mut Lists<Literal<u8>>, literal: Literal<usize>) -> Result<(), AddRefusal>
    ensures { Pushes literal lists.old lists.new result }
{
    lists
        .push(literal.try_into()?)
        .map_err(|_| AddRefusal::Full)
}

// Puts all literals into the open list.
fn push_all(lists: &mut Lists<Literal<u8>>, clause: &[Literal<usize>]) -> Result<(), AddRefusal>
    ensures { PushesAll clause.now lists.old lists.new result }
{
    for literal in clause {
        push(lists, *literal)?;
    }
    Ok(())
}

// Puts a clause after the others.
pub(crate) fn put(
    lists: &mut Lists<Literal<u8>>,
    clause: &[Literal<usize>],
) -> Result<(), AddRefusal>
    ensures { Puts clause.now lists.old lists.new result }
{
    push_all(lists, clause)?;
    lists.close().map_err(|_| AddRefusal::Full)
}
