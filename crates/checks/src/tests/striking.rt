// Strikes of single rows, and narrowing over a table and a ring.
use super::{check_sets, four_flags};
use model::book::Book;
use model::boxes::FlagBox;
use model::domain::Domain;
use model::scheduler::Scheduler;
use model::strike::Strike;
use narrowing::{Verdict, narrow};
use schedulers::ring::Ring;
use std::test::Fail;
use stories::books::table_of;
use table::decide::decide;
use table::relation::Relation::{And, Equal, Not, Or};
use table::table::Table;

// The sets of the first three flags.
fn box_of(x: Domain, y: Domain, z: Domain) -> FlagBox {
    let mut b = FlagBox::all_open();
    b.put(0, x);
    b.put(1, y);
    b.put(2, z);
    b
}

#[test]
fn a_dead_row_empties_all_its_flags(rt: HostRuntime) -> Result<(), Fail> {
    let table = table_of(rt.alloc(), &[And(0, 1, 2)])?;
    let mut b = box_of(Domain::One, Domain::One, Domain::Zero);
    assert_eq!(rt; table.strike(0, &mut b), Strike::Dead);
    assert_eq!(rt; b.get(0), Domain::Empty);
    assert_eq!(rt; b.get(1), Domain::Empty);
    assert_eq!(rt; b.get(2), Domain::Empty);
    assert_eq!(rt; b.get(3), Domain::Open);
    Ok(())
}

#[test]
fn a_strike_says_what_it_did(rt: HostRuntime) -> Result<(), Fail> {
    let table = table_of(rt.alloc(), &[Or(0, 1, 2)])?;
    let mut b = box_of(Domain::Zero, Domain::Open, Domain::One);
    assert_eq!(rt; table.strike(0, &mut b), Strike::Changed);
    assert_eq!(rt; b.get(1), Domain::One);
    assert_eq!(rt; table.strike(0, &mut b), Strike::Unchanged);
    Ok(())
}

#[test]
fn past_the_count_nothing_happens(rt: HostRuntime) -> Result<(), Fail> {
    let table = table_of(rt.alloc(), &[Equal(0, 1)])?;
    let mut b = box_of(Domain::Zero, Domain::One, Domain::Open);
    assert_eq!(rt; table.strike(1, &mut b), Strike::Unchanged);
    assert_eq!(rt; table.strike(u16::MAX, &mut b), Strike::Unchanged);
    assert_eq!(rt; b.get(0), Domain::Zero);
    assert!(rt; table.touches(0, 1));
    assert!(rt; !table.touches(0, 2));
    assert!(rt; !table.touches(1, 1));
    Ok(())
}

// What each of the twenty rules concludes.
#[test]
fn each_rule_concludes(rt: HostRuntime) {
    let (zero, one, open) = (Domain::Zero, Domain::One, Domain::Open);
    let rules = [
        (Equal(one, open), Equal(one, one)),
        (Equal(open, one), Equal(one, one)),
        (Equal(zero, open), Equal(zero, zero)),
        (Equal(open, zero), Equal(zero, zero)),
        (Not(one, open), Not(one, zero)),
        (Not(zero, open), Not(zero, one)),
        (Not(open, one), Not(zero, one)),
        (Not(open, zero), Not(one, zero)),
        (And(one, one, open), And(one, one, one)),
        (And(one, open, zero), And(one, zero, zero)),
        (And(open, one, zero), And(zero, one, zero)),
        (And(zero, open, open), And(zero, open, zero)),
        (And(open, zero, open), And(open, zero, zero)),
        (And(open, open, one), And(one, one, one)),
        (Or(one, open, open), Or(one, open, one)),
        (Or(zero, zero, open), Or(zero, zero, zero)),
        (Or(zero, open, one), Or(zero, one, one)),
        (Or(open, zero, one), Or(one, zero, one)),
        (Or(open, one, open), Or(open, one, one)),
        (Or(open, open, zero), Or(zero, zero, zero)),
    ];
    for (before, after) in rules {
        assert!(rt; decide(before) == after);
    }
}

#[test]
fn x_0_leaves_y_open(rt: HostRuntime) -> Result<(), Fail> {
    let table = table_of(rt.alloc(), &[And(0, 1, 2)])?;
    let mut b = FlagBox::all_open();
    b.cut(0, false);
    assert_eq!(rt; narrow(&table, &mut Ring::new(), &mut b), Verdict::Alive);
    check_sets(
        &rt,
        &b,
        [Domain::Zero, Domain::Open, Domain::Zero, Domain::Open],
    );
    Ok(())
}

#[test]
fn all_four_are_open(rt: HostRuntime) -> Result<(), Fail> {
    let mut b = FlagBox::all_open();
    assert_eq!(rt;
        narrow(&four_flags(rt.alloc())?, &mut Ring::new(), &mut b),
        Verdict::Alive
    );
    check_sets(&rt, &b, [Domain::Open; 4]);
    Ok(())
}

#[test]
fn y_1_settles_all_four(rt: HostRuntime) -> Result<(), Fail> {
    let table = four_flags(rt.alloc())?;
    let mut b = FlagBox::all_open();
    b.cut(1, true);
    assert_eq!(rt; narrow(&table, &mut Ring::new(), &mut b), Verdict::Alive);
    check_sets(
        &rt,
        &b,
        [Domain::Zero, Domain::One, Domain::Zero, Domain::Zero],
    );
    b.cut(2, true);
    assert_eq!(rt; narrow(&table, &mut Ring::new(), &mut b), Verdict::Dead);
    Ok(())
}

#[test]
fn x_1_leaves_the_rest_open(rt: HostRuntime) -> Result<(), Fail> {
    let mut b = FlagBox::all_open();
    b.cut(0, true);
    assert_eq!(rt;
        narrow(&four_flags(rt.alloc())?, &mut Ring::new(), &mut b),
        Verdict::Alive
    );
    check_sets(
        &rt,
        &b,
        [Domain::One, Domain::Open, Domain::Open, Domain::Open],
    );
    Ok(())
}

#[test]
fn a_flag_that_no_row_touches_can_die(rt: HostRuntime) -> Result<(), Fail> {
    let mut b = FlagBox::all_open();
    b.cut(200, true);
    b.cut(200, false);
    assert_eq!(rt;
        narrow(&four_flags(rt.alloc())?, &mut Ring::new(), &mut b),
        Verdict::Dead
    );
    Ok(())
}

// Flags 0 to 255 in one chain of equalities, told at its end; numbers of rows that are not there wait from the start.
#[test]
fn a_fact_goes_along_a_chain(rt: HostRuntime) -> Result<(), Fail> {
    let mut table = Table::new(rt.alloc())?;
    for flag in 0..255usize {
        table.add(Equal(flag, flag + 1))?;
    }
    assert_eq!(rt; table.count(), 255);
    let mut ring = Ring::new();
    ring.wake(1000);
    let mut b = FlagBox::all_open();
    b.cut(255, true);
    assert_eq!(rt; narrow(&table, &mut ring, &mut b), Verdict::Alive);
    for flag in 0..=u8::MAX {
        assert_eq!(rt; b.get(flag), Domain::One);
    }
    Ok(())
}

// Narrowing takes what waits already, also numbers of rows that are not there.
#[test]
fn all_1024_numbers_wait_at_the_start(rt: HostRuntime) -> Result<(), Fail> {
    let mut ring = Ring::new();
    for row in 0..1024u16 {
        assert!(rt; ring.wake(row));
    }
    let mut b = FlagBox::all_open();
    b.cut(1, true);
    assert_eq!(rt;
        narrow(&four_flags(rt.alloc())?, &mut ring, &mut b),
        Verdict::Alive
    );
    check_sets(
        &rt,
        &b,
        [Domain::Zero, Domain::One, Domain::Zero, Domain::Zero],
    );
    assert_eq!(rt; ring.take(), None);
    Ok(())
}
