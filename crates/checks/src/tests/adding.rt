// Every refusal of adding to a table, at its edge.
use model::book::Book;
use model::refusal::{AddRefusal, MakeRefusal, Refusal};
use std::test::Fail;
use table::relation::Relation;
use table::table::Table;

// A table that holds as many rows as it may.
fn full_table(rt: HostRuntime) -> Result<Table, Fail> {
    let mut table = Table::new(rt.alloc())?;
    for _ in 0..512 {
        table.add(Relation::Equal(0, 1))?;
    }
    Ok(table)
}

#[test]
fn flag_255_is_the_last(rt: HostRuntime) -> Result<(), Fail> {
    let mut table = Table::new(rt.alloc())?;
    assert_eq!(rt; table.add(Relation::Equal(0, 255)), Ok(()));
    assert_eq!(rt; table.add(Relation::Not(256, 0)), Err(AddRefusal::Flag));
    assert_eq!(rt; table.add(Relation::And(0, 256, 1)), Err(AddRefusal::Flag));
    assert_eq!(rt;
        table.add(Relation::Or(0, 1, usize::MAX)),
        Err(AddRefusal::Flag)
    );
    assert_eq!(rt; table.count(), 1);
    Ok(())
}

#[test]
fn flags_differ(rt: HostRuntime) -> Result<(), Fail> {
    let mut table = Table::new(rt.alloc())?;
    assert_eq!(rt; table.add(Relation::Equal(7, 7)), Err(AddRefusal::Twice));
    assert_eq!(rt; table.add(Relation::And(1, 1, 2)), Err(AddRefusal::Twice));
    assert_eq!(rt; table.add(Relation::And(1, 2, 1)), Err(AddRefusal::Twice));
    assert_eq!(rt; table.add(Relation::Or(2, 1, 1)), Err(AddRefusal::Twice));
    assert_eq!(rt; table.count(), 0);
    Ok(())
}

#[test]
fn rows_stop_at_512(rt: HostRuntime) -> Result<(), Fail> {
    let mut table = full_table(rt)?;
    assert_eq!(rt; table.count(), 512);
    assert_eq!(rt; table.add(Relation::Equal(0, 1)), Err(AddRefusal::Full));
    assert_eq!(rt; table.count(), 512);
    Ok(())
}

#[test]
fn refusals_come_in_their_order(rt: HostRuntime) -> Result<(), Fail> {
    let mut table = full_table(rt)?;
    assert_eq!(rt;
        table.add(Relation::And(300, 300, 0)),
        Err(AddRefusal::Flag)
    );
    assert_eq!(rt; table.add(Relation::And(3, 3, 256)), Err(AddRefusal::Flag));
    assert_eq!(rt; table.add(Relation::And(3, 3, 0)), Err(AddRefusal::Twice));
    Ok(())
}

#[test]
fn refusals_have_numbers(rt: HostRuntime) {
    assert_eq!(rt; AddRefusal::Flag.number(), 7);
    assert_eq!(rt; AddRefusal::Twice.number(), 12);
    assert_eq!(rt; AddRefusal::Full.number(), 13);
    assert_eq!(rt; AddRefusal::NoLiteral.number(), 14);
    assert_eq!(rt; MakeRefusal::Memory.number(), 30);
}

#[test]
fn refusals_are_said_in_words(rt: HostRuntime) -> Result<(), Fail> {
    let heap = rt.alloc();
    assert_eq!(rt;
        AddRefusal::Flag.to_string(heap)?.as_str(),
        "refused 7: a flag above 255"
    );
    assert_eq!(rt;
        AddRefusal::Twice.to_string(heap)?.as_str(),
        "refused 12: a flag twice in one row"
    );
    assert_eq!(rt;
        AddRefusal::Full.to_string(heap)?.as_str(),
        "refused 13: the book is full"
    );
    assert_eq!(rt;
        AddRefusal::NoLiteral.to_string(heap)?.as_str(),
        "refused 14: a clause without a literal"
    );
    assert_eq!(rt;
        MakeRefusal::Memory.to_string(heap)?.as_str(),
        "refused 30: no memory"
    );
    Ok(())
}
