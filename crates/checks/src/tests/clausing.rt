// Clauses: every refusal of adding at its edge, and strikes against every tuple.
use super::{check_touches, literal, no, yes};
use clauses::clauses::Clauses;
use clauses::literal::Literal;
use model::book::Book;
use model::boxes::FlagBox;
use model::domain::Domain;
use model::refusal::AddRefusal;
use model::strike::Strike;
use std::alloc::Global;
use std::process::Abort;
use std::test::Fail;

// Adding a clause comes to the answer that is said.
fn check_add(
    rt: &impl Abort,
    book: &mut Clauses,
    clause: &[Literal<usize>],
    said: Result<(), AddRefusal>,
) {
    assert_eq!(rt; book.add(clause), said);
}

#[test]
fn clauses_stop_at_512(rt: HostRuntime) -> Result<(), Fail> {
    let mut book = Clauses::new(rt.alloc())?;
    for _ in 0..511 {
        book.add(&[yes(0)])?;
    }
    check_full_of_clauses(&rt, &mut book);
    Ok(())
}

// One clause more, and then every refusal in its order.
fn check_full_of_clauses(rt: &impl Abort, book: &mut Clauses) {
    check_add(rt, book, &[yes(0), no(1)], Ok(()));
    assert_eq!(rt; book.count(), 512);
    check_add(rt, book, &[yes(0)], Err(AddRefusal::Full));
    check_add(rt, book, &[yes(0), no(0)], Err(AddRefusal::Twice));
    check_add(rt, book, &[yes(0), no(0), no(256)], Err(AddRefusal::Flag));
    check_add(rt, book, &[], Err(AddRefusal::NoLiteral));
    assert_eq!(rt; book.count(), 512);
    check_touches(
        rt,
        book,
        &[(511, 1, true), (510, 1, false), (512, 0, false)],
    );
}

// A clause of the flags from 0 on, so many that it has 16 literals, and of one flag more.
fn sixteen_and(more: &[Literal<usize>], heap: Global) -> Result<Vec<Literal<usize>>, Fail> {
    let mut clause = Vec::new(heap);
    for flag in 0..16usize {
        clause.push(yes(flag))?;
    }
    clause.extend_from_slice(more)?;
    Ok(clause)
}

#[test]
fn literals_stop_at_2048(rt: HostRuntime) -> Result<(), Fail> {
    let mut book = Clauses::new(rt.alloc())?;
    let sixteen = sixteen_and(&[], rt.alloc())?;
    for _ in 0..127 {
        book.add(&sixteen)?;
    }
    let seventeen = sixteen_and(&[no(255)], rt.alloc())?;
    check_add(&rt, &mut book, &seventeen, Err(AddRefusal::Full));
    assert_eq!(rt; book.count(), 127);
    check_add(&rt, &mut book, &sixteen, Ok(()));
    assert_eq!(rt; book.count(), 128);
    check_add(&rt, &mut book, &[yes(0)], Err(AddRefusal::Full));
    check_touches(
        &rt,
        &book,
        &[(127, 15, true), (127, 255, false), (128, 15, false)],
    );
    Ok(())
}

#[test]
fn flags_stop_at_255(rt: HostRuntime) -> Result<(), Fail> {
    let mut book = Clauses::new(rt.alloc())?;
    check_flags(&rt, &mut book);
    check_last_flag(&rt, &book);
    Ok(())
}

fn check_flags(rt: &impl Abort, book: &mut Clauses) {
    check_add(rt, book, &[no(255)], Ok(()));
    check_add(rt, book, &[no(256)], Err(AddRefusal::Flag));
    check_add(rt, book, &[no(0), yes(usize::MAX)], Err(AddRefusal::Flag));
    check_add(rt, book, &[no(3), yes(1), yes(3)], Err(AddRefusal::Twice));
    check_add(rt, book, &[no(1), yes(3), yes(3)], Err(AddRefusal::Twice));
    assert_eq!(rt; book.count(), 1);
}

// The one clause says that flag 255 is 0.
fn check_last_flag(rt: &impl Abort, book: &Clauses) {
    let mut b = FlagBox::all_open();
    assert_eq!(rt; book.strike(0, &mut b), Strike::Changed);
    assert_eq!(rt; b.get(255), Domain::Zero);
    assert_eq!(rt; book.strike(0, &mut b), Strike::Unchanged);
    b.put(255, Domain::One);
    assert_eq!(rt; book.strike(0, &mut b), Strike::Dead);
    assert_eq!(rt; b.get(255), Domain::Empty);
    assert_eq!(rt; book.strike(0, &mut b), Strike::Dead);
    assert_eq!(rt; book.strike(1, &mut b), Strike::Unchanged);
}

// A set with one value more.
fn with_value(set: Domain, value: bool) -> Domain {
    match (set, value) {
        (Domain::Empty | Domain::Zero, false) => Domain::Zero,
        (Domain::Empty | Domain::One, true) => Domain::One,
        _ => Domain::Open,
    }
}

// Every box and every choice of signs, against all tuples.
#[test]
fn strikes_are_exact(rt: HostRuntime) -> Result<(), Fail> {
    for p in [false, true] {
        for q in [false, true] {
            for r in [false, true] {
                let mut book = Clauses::new(rt.alloc())?;
                book.add(&[literal(7, p), literal(0, q), literal(255, r)])?;
                check_every_box(&rt, &book, [p, q, r]);
            }
        }
    }
    Ok(())
}

fn check_every_box(rt: &impl Abort, book: &Clauses, signs: [bool; 3]) {
    let sets = [Domain::Empty, Domain::Zero, Domain::One, Domain::Open];
    for x in sets {
        for y in sets {
            for z in sets {
                check_box(rt, book, signs, [x, y, z]);
            }
        }
    }
}

// What is left of three sets: the values of the tuples from them in which some literal is true.
fn left_of(signs: [bool; 3], sets: [Domain; 3]) -> [Domain; 3] {
    let [p, q, r] = signs;
    let [x, y, z] = sets;
    let mut left = [Domain::Empty; 3];
    for u in [false, true] {
        for v in [false, true] {
            for w in [false, true] {
                let some_true = u == p || v == q || w == r;
                if some_true && x.contains(u) && y.contains(v) && z.contains(w) {
                    left[0] = with_value(left[0], u);
                    left[1] = with_value(left[1], v);
                    left[2] = with_value(left[2], w);
                }
            }
        }
    }
    left
}

// A strike of the clause over flags 7, 0 and 255, with these signs, in a box with these sets.
fn check_box(rt: &impl Abort, book: &Clauses, signs: [bool; 3], sets: [Domain; 3]) {
    let mut b = FlagBox::all_open();
    b.put(7, sets[0]);
    b.put(0, sets[1]);
    b.put(255, sets[2]);
    let answer = book.strike(0, &mut b);
    let left = left_of(signs, sets);
    assert_eq!(rt; [b.get(7), b.get(0), b.get(255)], left);
    assert_eq!(rt; b.get(1), Domain::Open);
    let said = if left[0] == Domain::Empty {
        Strike::Dead
    } else if left == sets {
        Strike::Unchanged
    } else {
        Strike::Changed
    };
    assert_eq!(rt; answer, said);
}
