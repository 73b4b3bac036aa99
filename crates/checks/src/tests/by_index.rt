// Narrowing by the index, over tables and joined books, under every scheduler, and against brute force.
use super::{check_sets, fact, four_flags, no, yes};
use clauses::clauses::Clauses;
use index::Index;
use indexed::{Indexed, narrow, narrow_to};
use joined::Joined;
use model::book::Book;
use model::boxes::FlagBox;
use model::domain::Domain;
use model::fact::Fact;
use model::scheduler::Scheduler;
use model::strike::Strike;
use narrowing::Verdict;
use schedulers::lanes::Lanes;
use schedulers::queue::Queue;
use schedulers::ring::Ring;
use std::alloc::Global;
use std::process::Abort;
use std::test::Fail;
use stories::books::{clauses_of, table_of};
use table::relation::Relation::{And, Equal, Not, Or};
use table::table::Table;

// Narrows under a ring.
fn narrowed(heap: Global, table: &Table, b: &mut FlagBox) -> Result<Verdict, Fail> {
    let index = Index::new(heap, table)?;
    Ok(narrow(table, &index, &mut Ring::new(), b))
}

#[test]
fn x_0_leaves_y_open_by_index(rt: HostRuntime) -> Result<(), Fail> {
    let heap = rt.alloc();
    let table = table_of(heap, &[And(0, 1, 2)])?;
    let mut b = FlagBox::all_open();
    b.cut(0, false);
    assert_eq!(rt; narrowed(heap, &table, &mut b)?, Verdict::Alive);
    check_sets(
        &rt,
        &b,
        [Domain::Zero, Domain::Open, Domain::Zero, Domain::Open],
    );
    Ok(())
}

#[test]
fn all_four_are_open_by_index(rt: HostRuntime) -> Result<(), Fail> {
    let heap = rt.alloc();
    let mut b = FlagBox::all_open();
    assert_eq!(rt; narrowed(heap, &four_flags(heap)?, &mut b)?, Verdict::Alive);
    check_sets(&rt, &b, [Domain::Open; 4]);
    Ok(())
}

#[test]
fn y_1_settles_all_four_by_index(rt: HostRuntime) -> Result<(), Fail> {
    let heap = rt.alloc();
    let indexed = Indexed::new(heap, four_flags(heap)?)?;
    let mut queue = Queue::new();
    let mut b = FlagBox::all_open();
    assert_eq!(rt;
        indexed.narrow_to(&mut queue, &mut b, fact(1, true)),
        Verdict::Alive
    );
    check_sets(
        &rt,
        &b,
        [Domain::Zero, Domain::One, Domain::Zero, Domain::Zero],
    );
    assert_eq!(rt;
        indexed.narrow_to(&mut queue, &mut b, fact(1, true)),
        Verdict::Alive
    );
    assert_eq!(rt;
        indexed.narrow_to(&mut queue, &mut b, fact(2, true)),
        Verdict::Dead
    );
    assert_eq!(rt; queue.take(), None);
    Ok(())
}

#[test]
fn x_1_leaves_the_rest_open_by_index(rt: HostRuntime) -> Result<(), Fail> {
    let heap = rt.alloc();
    let mut b = FlagBox::all_open();
    b.cut(0, true);
    assert_eq!(rt; narrowed(heap, &four_flags(heap)?, &mut b)?, Verdict::Alive);
    check_sets(
        &rt,
        &b,
        [Domain::One, Domain::Open, Domain::Open, Domain::Open],
    );
    Ok(())
}

#[test]
fn a_flag_that_no_row_touches_can_die_by_index(rt: HostRuntime) -> Result<(), Fail> {
    let heap = rt.alloc();
    let table = four_flags(heap)?;
    let index = Index::new(heap, &table)?;
    let mut b = FlagBox::all_open();
    assert_eq!(rt;
        narrow_to(&table, &index, &mut Ring::new(), &mut b, fact(200, true)),
        Verdict::Alive
    );
    assert_eq!(rt;
        narrow_to(&table, &index, &mut Ring::new(), &mut b, fact(200, false)),
        Verdict::Dead
    );
    assert_eq!(rt; narrowed(heap, &table, &mut b)?, Verdict::Dead);
    Ok(())
}

// x or v as a clause, joined before x and y = z: x = 0 forces v, and z = 0.
#[test]
fn a_fact_forces_a_literal(rt: HostRuntime) -> Result<(), Fail> {
    let heap = rt.alloc();
    let first = clauses_of(heap, &[&[yes(0), yes(3)]])?;
    let second = table_of(heap, &[And(0, 1, 2)])?;
    let indexed = Indexed::new(heap, Joined { first, second })?;
    let mut queue = Queue::new();
    let mut b = FlagBox::all_open();
    assert_eq!(rt; indexed.narrow(&mut queue, &mut b), Verdict::Alive);
    assert_eq!(rt;
        indexed.narrow_to(&mut queue, &mut b, fact(0, false)),
        Verdict::Alive
    );
    check_sets(
        &rt,
        &b,
        [Domain::Zero, Domain::Open, Domain::Zero, Domain::One],
    );
    Ok(())
}

// Flags 0 to 255 in one chain of equalities, told at its end; numbers of rows that are not there wait from the start.
#[test]
fn a_fact_goes_along_a_chain_by_index(rt: HostRuntime) -> Result<(), Fail> {
    let heap = rt.alloc();
    let mut table = Table::new(heap)?;
    for flag in 0..255usize {
        table.add(Equal(flag, flag + 1))?;
    }
    assert_eq!(rt; table.count(), 255);
    let index = Index::new(heap, &table)?;
    let mut ring = Ring::new();
    ring.wake(1000);
    let mut b = FlagBox::all_open();
    assert_eq!(rt;
        narrow_to(&table, &index, &mut ring, &mut b, fact(255, true)),
        Verdict::Alive
    );
    for flag in 0..=u8::MAX {
        assert_eq!(rt; b.get(flag), Domain::One);
    }
    assert_eq!(rt; ring.take(), None);
    Ok(())
}

// Narrowing takes what waits already, also numbers of rows that are not there.
#[test]
fn all_1024_numbers_wait_at_the_start_by_index(rt: HostRuntime) -> Result<(), Fail> {
    let heap = rt.alloc();
    let indexed = Indexed::new(heap, four_flags(heap)?)?;
    let mut ring = Ring::new();
    for row in 0..1024u16 {
        assert!(rt; ring.wake(row));
    }
    let mut b = FlagBox::all_open();
    b.cut(1, true);
    assert_eq!(rt; indexed.narrow(&mut ring, &mut b), Verdict::Alive);
    check_sets(
        &rt,
        &b,
        [Domain::Zero, Domain::One, Domain::Zero, Domain::Zero],
    );
    assert_eq!(rt; ring.take(), None);
    Ok(())
}

// Six flags: clauses before a table.
fn six_flags(heap: Global) -> Result<Joined<Clauses, Table>, Fail> {
    let first = clauses_of(
        heap,
        &[&[yes(0), no(3), yes(5)], &[no(1), no(2)], &[yes(4), yes(3)]],
    )?;
    let second = table_of(heap, &[And(0, 1, 2), Or(2, 3, 4), Not(4, 5), Equal(5, 1)])?;
    Ok(Joined { first, second })
}

// Whether a state of six flags, as the digits of a number below 64, meets all rows.
fn meets_all(state: u8) -> bool {
    let x = digit(state, 0);
    let y = digit(state, 1);
    let z = digit(state, 2);
    let u = digit(state, 3);
    let v = digit(state, 4);
    let w = digit(state, 5);
    let clauses = (x || !u || w) && (!y || !z) && (v || u);
    let table = (x && y) == z && (z || u) == v && v != w && w == y;
    clauses && table
}

// Every state that fits the fact lies in the box, and striking any row once more changes nothing.
fn check_narrowed<B: Book>(rt: &impl Abort, book: &B, b: &FlagBox, fact: Fact) {
    for state in 0..64u8 {
        if meets_all(state) && digit(state, fact.flag) == fact.value {
            for other in 0..6u8 {
                assert!(rt; b.get(other).contains(digit(state, other)));
            }
        }
    }
    for row in 0..book.count() {
        let mut again = *b;
        assert_eq!(rt; book.strike(row, &mut again), Strike::Unchanged);
    }
}

// The value of one of six flags in a state.
fn digit(state: u8, flag: u8) -> bool {
    match flag {
        0 => state % 2 == 1,
        1 => state / 2 % 2 == 1,
        2 => state / 4 % 2 == 1,
        3 => state / 8 % 2 == 1,
        4 => state / 16 % 2 == 1,
        _ => state / 32 % 2 == 1,
    }
}

// One fact in a narrowed box, under three schedulers.
fn check_fact<B: Book, L: Scheduler>(
    rt: &impl Abort,
    indexed: &Indexed<B>,
    lanes: &mut L,
    open: &FlagBox,
    fact: Fact,
) {
    let mut a = *open;
    let mut b = *open;
    let mut c = *open;
    let verdict = indexed.narrow_to(&mut Ring::new(), &mut a, fact);
    assert_eq!(rt; indexed.narrow_to(&mut Queue::new(), &mut b, fact), verdict);
    assert_eq!(rt; indexed.narrow_to(lanes, &mut c, fact), verdict);
    assert_eq!(rt; lanes.take(), None);
    match verdict {
        Verdict::Alive => {
            assert!(rt; a == b && a == c);
            check_narrowed(rt, indexed.book(), &a, fact);
        }
        Verdict::Dead => check_none_fits(rt, fact),
    }
}

fn check_none_fits(rt: &impl Abort, fact: Fact) {
    for state in 0..64u8 {
        assert!(rt; !(meets_all(state) && digit(state, fact.flag) == fact.value));
    }
}

// Each fact alone, under a ring, a queue and lanes over a queue and a ring.
#[test]
fn all_orders_end_in_the_same_box(rt: HostRuntime) -> Result<(), Fail> {
    let heap = rt.alloc();
    let indexed = Indexed::new(heap, six_flags(heap)?)?;
    let mut lanes = Lanes::new(Queue::new(), Ring::new(), indexed.book().first.count());
    let mut open = FlagBox::all_open();
    assert_eq!(rt; indexed.narrow(&mut lanes, &mut open), Verdict::Alive);
    for flag in 0..6u8 {
        check_fact(&rt, &indexed, &mut lanes, &open, fact(flag, false));
        check_fact(&rt, &indexed, &mut lanes, &open, fact(flag, true));
    }
    Ok(())
}
