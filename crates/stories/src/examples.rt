// The flags, the rules and the facts of the two examples. A flag is known by its place in the list of names.
use crate::flags::Flags;
use crate::story::Story;
use clauses::literal::Literal;
use model::fact::Fact;
use table::relation::Relation;
use table::relation::Relation::{And, Equal, Not, Or};

const FLAGS_OF_FOUR: &[&str] = &["x", "y", "z", "v"];

const NO_CLAUSES: &[&[Literal<usize>]] = &[];

// x and y = z, x and v = z, not y = v
const RULES_OF_FOUR: &[Relation<usize>] = &[And(0, 1, 2), And(0, 3, 2), Not(1, 3)];

const FACTS_OF_FOUR: &[Fact] = &[
    Fact {
        flag: 1,
        value: true,
    },
    Fact {
        flag: 2,
        value: true,
    },
];

const OTHER_FACTS_OF_FOUR: &[Fact] = &[Fact {
    flag: 0,
    value: true,
}];

const FLAGS_OF_GATEWAY: &[&str] = &[
    "mains voltage present",
    "meter seen",
    "mains usable",
    "relay closed",
    "cells balanced",
    "cells warm enough",
    "cells ready",
    "inverter running",
    "charge allowed",
    "fault lamp on",
    "island mode",
    "backup supply on",
    "house has power",
];

const RULES_OF_GATEWAY: &[Relation<usize>] = &[
    And(0, 1, 2),
    Equal(2, 3),
    And(4, 5, 6),
    And(6, 7, 8),
    Not(6, 9),
    Not(3, 10),
    And(10, 7, 11),
    Or(3, 11, 12),
];

const FACTS_OF_GATEWAY: &[Fact] = &[
    Fact {
        flag: 12,
        value: false,
    },
    Fact {
        flag: 9,
        value: false,
    },
    Fact {
        flag: 8,
        value: true,
    },
    Fact {
        flag: 1,
        value: true,
    },
];

// No charge in island mode. The lamp is on where neither the mains nor the backup supply serves the house. The meter is seen only where the
// cells are warm enough or the mains voltage is present.
const CLAUSES_OF_GATEWAY: &[&[Literal<usize>]] = &[
    &[
        Literal {
            flag: 8,
            positive: false,
        },
        Literal {
            flag: 10,
            positive: false,
        },
    ],
    &[
        Literal {
            flag: 2,
            positive: true,
        },
        Literal {
            flag: 11,
            positive: true,
        },
        Literal {
            flag: 9,
            positive: true,
        },
    ],
    &[
        Literal {
            flag: 1,
            positive: false,
        },
        Literal {
            flag: 5,
            positive: true,
        },
        Literal {
            flag: 0,
            positive: true,
        },
    ],
];

const FACTS_WITH_CLAUSES: &[Fact] = &[
    Fact {
        flag: 12,
        value: false,
    },
    Fact {
        flag: 1,
        value: true,
    },
    Fact {
        flag: 4,
        value: true,
    },
];

pub const FOUR: Story<'static> = Story {
    title: "Four flags",
    flags: Flags {
        names: FLAGS_OF_FOUR,
    },
    clauses: NO_CLAUSES,
    rules: RULES_OF_FOUR,
    facts: FACTS_OF_FOUR,
};

pub const FOUR_TOLD_OTHERWISE: Story<'static> = Story {
    title: "Four flags, told otherwise",
    facts: OTHER_FACTS_OF_FOUR,
    ..FOUR
};

pub const GATEWAY: Story<'static> = Story {
    title: "The gateway of a home battery",
    flags: Flags {
        names: FLAGS_OF_GATEWAY,
    },
    clauses: NO_CLAUSES,
    rules: RULES_OF_GATEWAY,
    facts: FACTS_OF_GATEWAY,
};

pub const GATEWAY_WITH_CLAUSES: Story<'static> = Story {
    title: "The gateway of a home battery, with clauses before the table",
    clauses: CLAUSES_OF_GATEWAY,
    facts: FACTS_WITH_CLAUSES,
    ..GATEWAY
};
