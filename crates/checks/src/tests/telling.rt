// Books of stories, with a rule or a clause that is refused, and sentences.
use super::{fact, no, yes};
use model::boxes::FlagBox;
use model::refusal::AddRefusal;
use std::test::Fail;
use stories::books::{BookRefusal, clauses_of, table_of};
use stories::flags::Flags;
use stories::saying::{ClauseInWords, FactTold, StillOpen};
use table::relation::Relation::{And, Equal};

#[test]
fn a_refused_rule_makes_no_table(rt: HostRuntime) {
    assert!(rt;
        table_of(rt.alloc(), &[And(0, 1, 2), Equal(3, 3)]).err()
            == Some(BookRefusal::NotAdded(AddRefusal::Twice))
    );
}

#[test]
fn a_refused_clause_makes_no_book(rt: HostRuntime) {
    assert!(rt;
        clauses_of(rt.alloc(), &[&[yes(0)], &[no(256)]]).err()
            == Some(BookRefusal::NotAdded(AddRefusal::Flag))
    );
}

const TWO: Flags<'static> = Flags {
    names: &["relay closed", "meter seen"],
};

#[test]
fn sentences_name_the_flags(rt: HostRuntime) -> Result<(), Fail> {
    let heap = rt.alloc();
    let told = FactTold {
        flags: TWO,
        fact: fact(1, true),
    };
    assert_eq!(rt; told.to_string(heap)?.as_str(), "Told: meter seen is yes.");
    let clause = ClauseInWords {
        flags: TWO,
        clause: &[no(0), yes(2)],
    };
    assert_eq!(rt;
        clause.to_string(heap)?.as_str(),
        "  Rule: relay closed is no, or a flag without a name is yes."
    );
    Ok(())
}

#[test]
fn what_is_open_is_said(rt: HostRuntime) -> Result<(), Fail> {
    let heap = rt.alloc();
    let mut b = FlagBox::all_open();
    let open = StillOpen { flags: TWO, b: &b };
    assert_eq!(rt;
        open.to_string(heap)?.as_str(),
        "  Still open: relay closed, meter seen."
    );
    b.cut(0, false);
    b.cut(1, false);
    let open = StillOpen { flags: TWO, b: &b };
    assert_eq!(rt; open.to_string(heap)?.as_str(), "  Still open: nothing.");
    Ok(())
}
