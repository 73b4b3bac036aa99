// What all tests use.
use clauses::literal::Literal;
use model::book::Book;
use model::boxes::FlagBox;
use model::domain::Domain;
use model::fact::Fact;
use std::alloc::Global;
use std::process::Abort;
use std::test::Fail;
use stories::books::table_of;
use table::relation::Relation::{And, Not};
use table::table::Table;

mod adding;
mod by_index;
mod choosing;
mod clausing;
mod joining;
mod lining;
mod ring;
mod striking;
mod telling;

fn literal(flag: usize, positive: bool) -> Literal<usize> {
    Literal { flag, positive }
}

// A flag, and its negation.
fn yes(flag: usize) -> Literal<usize> {
    literal(flag, true)
}

fn no(flag: usize) -> Literal<usize> {
    literal(flag, false)
}

fn fact(flag: u8, value: bool) -> Fact {
    Fact { flag, value }
}

// x and y = z, x and v = z, not y = v, with flags x y z v = 0 1 2 3
fn four_flags(heap: Global) -> Result<Table, Fail> {
    Ok(table_of(heap, &[And(0, 1, 2), And(0, 3, 2), Not(1, 3)])?)
}

// The sets of the first four flags are these.
fn check_sets(rt: &impl Abort, b: &FlagBox, sets: [Domain; 4]) {
    for (flag, set) in (0..=u8::MAX).zip(&sets) {
        assert_eq!(rt; b.get(flag), *set);
    }
}

// Whether each row has the flag, or not, as it is said.
fn check_touches<B: Book>(rt: &impl Abort, book: &B, said: &[(u16, usize, bool)]) {
    for (row, flag, touched) in said {
        assert_eq!(rt; book.touches(*row, *flag), *touched);
    }
}
