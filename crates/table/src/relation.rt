ghost use Rattle.std.specs.Prelude.{◌≡◌, true, false, MatchBool, MatchResult};
ghost use Rattle.model.specs.Rows.{elem};
ghost use Rattle.model.specs.View.{at};
ghost use Rattle.table.specs.Refusals.{in_bytes};
ghost use Rattle.table.specs.Relations.{first, second, third, each, flags_of, Placewise, AtSomePlace, AtEachPlace};

use model::boxes::FlagBox;
use model::domain::Domain;
use model::refusal::AddRefusal;

// A row of a table is one of four kinds: x = y, not x = y, x and y = z, x or y = z. `Relation<usize>` is a row as it is handed in,
// `Relation<u8>` one that is stored, and `Relation<Domain>` holds the sets of a row's flags. A row of two flags has no third.
#[derive(Clone, Copy, PartialEq, Eq, Debug)]
pub enum Relation<T> {
    Equal(T, T),
    Not(T, T),
    And(T, T, T),
    Or(T, T, T),
}

// Goes through the places of a relation once, for all that asks something of each of them.
impl<T: Copy> Relation<T> {
    // What stands at its first, its second and its third place.
    pub(crate) fn places(self) -> (T, T, Option<T>)
        ensures { result ≡ (first self, second self, third self) }
    {
        match self {
            Relation::Equal(x, y) | Relation::Not(x, y) => (x, y, None),
            Relation::And(x, y, z) | Relation::Or(x, y, z) => (x, y, Some(z)),
        }
    }

    // The relation of what the function gives at each place.
    fn map<U, F: Fn(T) -> U>(self, f: F) -> Relation<U>
        requires { F.IsAlwaysCallable f }
        ensures { Placewise (F.post f) self result }
    {
        match self {
            Relation::Equal(x, y) => Relation::Equal(f(x), f(y)),
            Relation::Not(x, y) => Relation::Not(f(x), f(y)),
            Relation::And(x, y, z) => Relation::And(f(x), f(y), f(z)),
            Relation::Or(x, y, z) => Relation::Or(f(x), f(y), f(z)),
        }
    }

    // The same for a function that may fail; if it does at some place, the answer is its error.
    fn try_map<U: Drop, E, F: Fn(T) -> Result<U, E>>(self, f: F) -> Result<Relation<U>, E>
        requires { F.IsAlwaysCallable f }
        ensures { MatchResult result (Placewise (λ x y. F.post f x (Ok y)) self) (λ e. AtSomePlace (λ x. F.post f x (Err e)) self) }
    {
        Ok(match self {
            Relation::Equal(x, y) => Relation::Equal(f(x)?, f(y)?),
            Relation::Not(x, y) => Relation::Not(f(x)?, f(y)?),
            Relation::And(x, y, z) => Relation::And(f(x)?, f(y)?, f(z)?),
            Relation::Or(x, y, z) => Relation::Or(f(x)?, f(y)?, f(z)?),
        })
    }

    // Whether some place passes the test.
    fn any<F: Fn(T) -> bool>(self, test: F) -> bool
        requires { F.IsAlwaysCallable test }
        ensures { MatchBool result (AtSomePlace (λ x. F.post test x true) self) (AtEachPlace (λ x. F.post test x false) self) }
    {
        match self {
            Relation::Equal(x, y) | Relation::Not(x, y) => test(x) || test(y),
            Relation::And(x, y, z) | Relation::Or(x, y, z) => test(x) || test(y) || test(z),
        }
    }
}

impl Relation<u8> {
    // The sets of its flags in a box.
    pub(crate) fn sets_in(self, b: &FlagBox) -> Relation<Domain>
        ensures { result ≡ each (at b.now) self }
    {
        self.map(|flag| b.get(flag))
    }

    // Whether the flag is one of its flags.
    pub(crate) fn has(self, flag: usize) -> bool
        ensures { result ≡ elem flag (flags_of self) }
    {
        self.any(|place| usize::from(place) == flag)
    }
}

// A relation with its flags as bytes, if none is above 255.
impl TryFrom<Relation<usize>> for Relation<u8> {
    type Error = AddRefusal;

    ghost try_from_gives = { λ relation r. r ≡ in_bytes relation };

    fn try_from(relation: Relation<usize>) -> Result<Relation<u8>, AddRefusal> {
        relation.try_map(u8::try_from).map_err(|_| AddRefusal::Flag)
    }
}
