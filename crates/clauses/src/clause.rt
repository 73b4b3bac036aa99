// Striking one clause.
ghost use Rattle.std.specs.Prelude.{◌≡◌, ◌<◌, false, length};
ghost use Rattle.model.specs.Boxes.{with_set};
ghost use Rattle.model.specs.Refusals.{some_twice};
ghost use Rattle.model.specs.Strikes.{Strikes};
ghost use Rattle.model.specs.View.{at};
ghost use Rattle.model.specs.declared.domain.Domain.TheVariants.{Empty};
ghost use Rattle.clauses.specs.Literals.{flags_of, row_of};
ghost use Rattle.clauses.specs.Outlooks.{one_more, looked, outlook_of, emptied, Acts};

use crate::literal::Literal;
use model::boxes::FlagBox;
use model::domain::Domain;
use model::strike::Strike;

// What the literals of a clause can still do in a box.
#[derive(Clone, Copy)]
enum Outlook {
    // none can be true, or a flag has no value left
    Dead,
    // only this one can be true
    Forced(Literal<u8>),
    // two or more can be true
    Free,
}

// The outlook with one more literal that can be true.
fn one_more(seen: Outlook, literal: Literal<u8>) -> Outlook
    ensures { result ≡ one_more seen literal }
{
    match seen {
        Outlook::Dead => Outlook::Forced(literal),
        Outlook::Forced(_) | Outlook::Free => Outlook::Free,
    }
}

// The outlook after a look at one more literal. There is none if its flag has no value left, since then the other literals do not matter.
fn look(seen: Outlook, literal: Literal<u8>, b: &FlagBox) -> Option<Outlook>
    ensures { result ≡ looked (at b.now literal.flag) seen literal }
{
    let set = b.get(literal.flag);
    if set == Domain::Empty {
        None
    } else if set.contains(literal.positive) {
        Some(one_more(seen, literal))
    } else {
        Some(seen)
    }
}

// What the literals of a clause can still do. An empty set ends the walk; two literals that can be true do not, since a later set may be empty.
fn survey(clause: &[Literal<u8>], b: &FlagBox) -> Outlook
    ensures { result ≡ outlook_of (at b.now) clause.now }
{
    let mut seen = Outlook::Dead;
    for literal in clause {
        match look(seen, *literal, b) {
            Some(more) => seen = more,
            None => return Outlook::Dead,
        }
    }
    seen
}

// Empties the set of the literal's flag.
fn empty(literal: Literal<u8>, b: &mut FlagBox)
    ensures { at b.new ≡ with_set (at b.old) literal.flag Empty }
{
    b.put(literal.flag, Domain::Empty);
}

// Empties the sets of all flags of the clause.
fn empty_all(clause: &[Literal<u8>], b: &mut FlagBox)
    ensures { at b.new ≡ emptied (flags_of clause.now) (at b.old) }
{
    for literal in clause {
        empty(*literal, b);
    }
}

// Does what the outlook of a clause asks for.
fn act(outlook: Outlook, clause: &[Literal<u8>], b: &mut FlagBox) -> Strike
    ensures { Acts outlook (flags_of clause.now) (at b.old) (at b.new) result }
{
    match outlook {
        Outlook::Dead => {
            empty_all(clause, b);
            Strike::Dead
        }
        Outlook::Forced(literal) => b.force(literal.into()),
        Outlook::Free => Strike::Unchanged,
    }
}

// Leaves each flag of the clause exactly the values that have support.
pub(crate) fn strike_clause(clause: &[Literal<u8>], b: &mut FlagBox) -> Strike
    ensures { 0 < length clause.now → some_twice (flags_of clause.now) ≡ false → Strikes (row_of clause.now) (at b.old) (at b.new) result }
{
    let outlook = survey(clause, b);
    act(outlook, clause, b)
}
