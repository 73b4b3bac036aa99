// Reasons to refuse a clause.
ghost use Rattle.std.specs.Prelude.{◌≡◌, Some, None, nat_lt, MatchResult};
ghost use Rattle.model.specs.Refusals.{some_large, some_twice};
ghost use Rattle.clauses.specs.Literals.{flags_of};
ghost use Rattle.clauses.specs.Refusals.{is_full, refusal};

use crate::literal::{Literal, names};
use model::refusal::AddRefusal;

pub(crate) const MOST_CLAUSES: usize = 512;

pub(crate) const MOST_LITERALS: usize = 2048;

// Checks that a clause may be added where so many clauses and literals are held.
pub(crate) fn check(
    clause: &[Literal<usize>],
    clauses: usize,
    literals: usize,
) -> Result<(), AddRefusal>
    ensures { MatchResult result (λ _. refusal clauses literals clause.now ≡ None) (λ e. refusal clauses literals clause.now ≡ Some e) }
{
    if clause.is_empty() {
        Err(AddRefusal::NoLiteral)
    } else if names_large(clause) {
        Err(AddRefusal::Flag)
    } else if names_twice(clause) {
        Err(AddRefusal::Twice)
    } else if lacks_room(clauses, literals, clause.len()) {
        Err(AddRefusal::Full)
    } else {
        Ok(())
    }
}

// Whether its flag is above 255.
fn is_large(literal: &Literal<usize>) -> bool
    ensures { result ≡ nat_lt 255 literal.now.flag }
{
    literal.flag > 255
}

// Whether some flag is above 255.
fn names_large(clause: &[Literal<usize>]) -> bool
    ensures { result ≡ some_large (flags_of clause.now) }
{
    clause.iter().any(is_large)
}

// Whether some flag stands there twice. Where no flag is above 255, the walk ends within 256 rounds, however long the clause is.
fn names_twice(clause: &[Literal<usize>]) -> bool
    ensures { result ≡ some_twice (flags_of clause.now) }
{
    clause
        .iter()
        .enumerate()
        .any(|(i, literal)| names(&clause[i + 1..], literal.flag))
}

// Whether there is no room for one clause more, of so many literals. Their sum need not fit a number, so no sum is taken.
fn lacks_room(clauses: usize, literals: usize, more: usize) -> bool
    ensures { result ≡ is_full clauses literals more }
{
    clauses >= MOST_CLAUSES || more > MOST_LITERALS || literals > MOST_LITERALS - more
}
