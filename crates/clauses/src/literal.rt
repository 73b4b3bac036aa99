ghost use Rattle.std.specs.Prelude.{◌≡◌, ℕ, map, ◌==◌};
ghost use Rattle.model.specs.Rows.{elem};
ghost use Rattle.clauses.specs.Literals.{in_bytes};

use model::fact::Fact;
use model::refusal::AddRefusal;

// A literal is a flag or its negation: a positive one is true where the flag is 1, the other where it is 0. `Literal<usize>` is a literal as
// it is handed in, `Literal<u8>` one that is stored.
#[derive(Clone, Copy, PartialEq, Eq, Debug)]
pub struct Literal<T> {
    pub flag: T,
    pub positive: bool,
}

// A literal of either kind: its flag is a number.
pub(crate) trait Numbered {
    ghost number: { Self → ℕ };

    // Whether it is of the flag, whatever its sign.
    fn is_of(&self, flag: usize) -> bool
        ensures { result ≡ (flag == number self.now) };
}

impl Numbered for Literal<usize> {
    ghost number = { λ literal. literal.flag };

    fn is_of(&self, flag: usize) -> bool {
        flag == self.flag
    }
}

impl Numbered for Literal<u8> {
    ghost number = { λ literal. literal.flag };

    fn is_of(&self, flag: usize) -> bool {
        flag == usize::from(self.flag)
    }
}

// Whether some literal is of the flag.
pub(crate) fn names<L: Numbered>(literals: &[L], flag: usize) -> bool
    ensures { result ≡ elem flag (map L.number literals.now) }
{
    literals.iter().any(|literal| literal.is_of(flag))
}

// A literal as it is stored: its flag is a byte, so it may not be above 255.
impl TryFrom<Literal<usize>> for Literal<u8> {
    type Error = AddRefusal;

    ghost try_from_gives = { λ literal r. r ≡ in_bytes literal };

    fn try_from(literal: Literal<usize>) -> Result<Literal<u8>, AddRefusal> {
        let flag = u8::try_from(literal.flag).map_err(|_| AddRefusal::Flag)?;
        Ok(Literal {
            flag,
            positive: literal.positive,
        })
    }
}

// A literal as a fact: it is true.
impl From<Literal<u8>> for Fact {
    ghost from_gives = { λ literal fact. (fact.flag ≡ literal.flag) × (fact.value ≡ literal.positive) };

    fn from(literal: Literal<u8>) -> Fact {
        Fact {
            flag: literal.flag,
            value: literal.positive,
        }
    }
}
