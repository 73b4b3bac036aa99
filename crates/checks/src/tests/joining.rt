// Joined books, at the edges of their parts, and their index against asking every row.
use super::{check_touches, no, yes};
use clauses::clauses::Clauses;
use index::{Index, workable_count};
use joined::Joined;
use model::book::Book;
use model::boxes::FlagBox;
use model::domain::Domain;
use model::strike::Strike;
use std::process::Abort;
use std::test::Fail;
use stories::books::{clauses_of, table_of};
use table::relation::Relation;
use table::relation::Relation::{And, Equal, Not};
use table::table::Table;

#[test]
fn the_second_book_follows_the_first(rt: HostRuntime) -> Result<(), Fail> {
    let heap = rt.alloc();
    let first = clauses_of(heap, &[&[yes(0), no(1)], &[no(2)]])?;
    let second = table_of(heap, &[Equal(3, 4), Not(5, 6)])?;
    let book = Joined { first, second };
    assert_eq!(rt; book.count(), 4);
    check_touches(
        &rt,
        &book,
        &[
            (0, 1, true),
            (1, 2, true),
            (1, 3, false),
            (2, 3, true),
            (3, 6, true),
            (4, 6, false),
            (u16::MAX, 0, false),
        ],
    );
    strike_in_turn(&rt, &book);
    Ok(())
}

fn strike_in_turn<B: Book>(rt: &impl Abort, book: &B) {
    let mut b = FlagBox::all_open();
    b.put(3, Domain::One);
    b.put(5, Domain::One);
    assert_eq!(rt; book.strike(1, &mut b), Strike::Changed);
    assert_eq!(rt; book.strike(2, &mut b), Strike::Changed);
    assert_eq!(rt; book.strike(4, &mut b), Strike::Unchanged);
    assert_eq!(rt; book.strike(u16::MAX, &mut b), Strike::Unchanged);
    assert_eq!(rt; b.get(2), Domain::Zero);
    assert_eq!(rt; b.get(4), Domain::One);
    assert_eq!(rt; b.get(6), Domain::Open);
}

// 512 clauses and 512 rows of a table are 1,024 rows, and with one more joined before them they are 1,025.
#[test]
fn joined_books_nest(rt: HostRuntime) -> Result<(), Fail> {
    let heap = rt.alloc();
    let mut first = Clauses::new(heap)?;
    let mut second = Table::new(heap)?;
    for _ in 0..512 {
        first.add(&[yes(0), yes(1)])?;
        second.add(Relation::Equal(2, 3))?;
    }
    let inner = Joined { first, second };
    assert_eq!(rt; inner.count(), 1024);
    check_touches(
        &rt,
        &inner,
        &[
            (511, 1, true),
            (512, 2, true),
            (1023, 3, true),
            (1024, 3, false),
        ],
    );
    assert_eq!(rt; workable_count(&inner), 1024);
    let book = Joined {
        first: table_of(heap, &[Not(4, 5)])?,
        second: inner,
    };
    assert_eq!(rt; book.count(), 1025);
    assert_eq!(rt; workable_count(&book), 1024);
    check_touches(
        &rt,
        &book,
        &[
            (0, 4, true),
            (1, 0, true),
            (512, 1, true),
            (513, 2, true),
            (1024, 3, true),
            (1025, 3, false),
        ],
    );
    let index = Index::new(heap, &book)?;
    check_1024_listed(&rt, &index);
    Ok(())
}

// The last of the 1,025 rows has flags 2 and 3, and is not listed.
fn check_1024_listed(rt: &impl Abort, index: &Index) {
    assert_eq!(rt; index.rows_with(4).len(), 1);
    assert_eq!(rt; index.rows_with(0).len(), 512);
    assert_eq!(rt; index.rows_with(3).len(), 511);
    assert_eq!(rt; index.flags_in(1023).len(), 2);
    assert_eq!(rt; index.flags_in(1024).len(), 0);
}

#[test]
fn the_index_lists_what_touches_says(rt: HostRuntime) -> Result<(), Fail> {
    let heap = rt.alloc();
    let first = clauses_of(heap, &[&[yes(255), no(1), yes(0)], &[no(255)]])?;
    let second = table_of(heap, &[And(0, 255, 7), Equal(7, 1)])?;
    let book = Joined { first, second };
    let index = Index::new(heap, &book)?;
    check_listed(&rt, &book, &index);
    Ok(())
}

fn check_listed<B: Book>(rt: &impl Abort, book: &B, index: &Index) {
    for flag in 0..=u8::MAX {
        for row in 0..6u16 {
            let touched = book.touches(row, usize::from(flag));
            assert_eq!(rt; index.rows_with(flag).contains(&row), touched);
            assert_eq!(rt; index.flags_in(row).contains(&flag), touched);
        }
    }
}
