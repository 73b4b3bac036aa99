ghost use Rattle.std.specs.Prelude.{◌≡◌};
ghost use Rattle.table.specs.Left.{left};

use crate::relation::Relation;
use crate::relation::Relation::{And, Equal, Not, Or};
use model::domain::Domain;
use model::domain::Domain::{Empty, One, Open, Zero};

// What a row leaves of the sets of its flags: of each set the values that some allowed tuple from the sets has there. If no tuple is left,
// every set is empty.
pub fn decide(sets: Relation<Domain>) -> Relation<Domain>
    ensures { result ≡ left sets }
{
    match sets {
        Equal(One, One | Open) | Equal(Open, One) => Equal(One, One),
        Equal(Zero, Zero | Open) | Equal(Open, Zero) => Equal(Zero, Zero),
        Equal(Open, Open) => Equal(Open, Open),
        Equal(_, _) => Equal(Empty, Empty),
        Not(One, Zero | Open) | Not(Open, Zero) => Not(One, Zero),
        Not(Zero, One | Open) | Not(Open, One) => Not(Zero, One),
        Not(Open, Open) => Not(Open, Open),
        Not(_, _) => Not(Empty, Empty),
        And(One, One, One | Open) | And(One | Open, One | Open, One) => And(One, One, One),
        And(One, Zero | Open, Zero) => And(One, Zero, Zero),
        And(Zero | Open, One, Zero) => And(Zero, One, Zero),
        And(Zero, Zero, Zero | Open) => And(Zero, Zero, Zero),
        And(Zero, y @ (One | Open), Zero | Open) => And(Zero, y, Zero),
        And(x @ (One | Open), Zero, Zero | Open) => And(x, Zero, Zero),
        And(Open, Open, Zero) => And(Open, Open, Zero),
        And(x, y, Open) if x != Empty && y != Empty => And(x, y, Open),
        And(_, _, _) => And(Empty, Empty, Empty),
        Or(Zero, Zero, Zero | Open) | Or(Zero | Open, Zero | Open, Zero) => Or(Zero, Zero, Zero),
        Or(Zero, One | Open, One) => Or(Zero, One, One),
        Or(One | Open, Zero, One) => Or(One, Zero, One),
        Or(One, One, One | Open) => Or(One, One, One),
        Or(One, y @ (Zero | Open), One | Open) => Or(One, y, One),
        Or(x @ (Zero | Open), One, One | Open) => Or(x, One, One),
        Or(Open, Open, One) => Or(Open, Open, One),
        Or(x, y, Open) if x != Empty && y != Empty => Or(x, y, Open),
        Or(_, _, _) => Or(Empty, Empty, Empty),
    }
}
