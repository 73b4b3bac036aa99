// Refusals, their numbers and their words.
ghost use Rattle.std.specs.Prelude.{◌≡◌, ℕ, Some};
ghost use Rattle.model.specs.Numbers.{add_number, make_number};
ghost use Rattle.model.specs.Words.{add_reason, add_said, make_said};
ghost use Rattle.model.specs.declared.refusal.MakeRefusal.TheVariants.{Memory};

use std::alloc::AllocError;
use std::error::Error;
use std::fmt;

// A refusal has a number, by which agents and documents name it. Every kind of refusal gets its numbers so: by a definition that goes
// through its cases.
pub trait Refusal {
    ghost code: { Self → ℕ };

    fn number(self) -> u8
        ensures { result ≡ code self };
}

// Why a row was not added to a book.
#[derive(Clone, Copy, PartialEq, Eq, Debug)]
pub enum AddRefusal {
    // a flag above 255
    Flag = 7,
    // a flag stands twice in the row
    Twice = 12,
    // the book holds as much as it may
    Full = 13,
    // a clause without a literal
    NoLiteral = 14,
}

impl Refusal for AddRefusal {
    ghost code = { add_number };

    fn number(self) -> u8 {
        self as u8
    }
}

impl AddRefusal {
    fn reason(self) -> &'static str
        ensures { result.now ≡ add_reason self }
    {
        match self {
            AddRefusal::Flag => "a flag above 255",
            AddRefusal::Twice => "a flag twice in one row",
            AddRefusal::Full => "the book is full",
            AddRefusal::NoLiteral => "a clause without a literal",
        }
    }
}

impl fmt::Display for AddRefusal {
    ghost output = { λ e. Some (add_said e) };

    fn fmt<W: fmt::Write>(&self, f: &mut fmt::Formatter<W>) -> fmt::Result {
        let number = self.number();
        let reason = self.reason();
        write!(f, "refused {number}: {reason}")
    }
}

impl Error for AddRefusal {}

// Why something was not made. Only constructors are refused for want of memory.
#[derive(Clone, Copy, PartialEq, Eq, Debug)]
pub enum MakeRefusal {
    // no memory
    Memory = 30,
}

impl Refusal for MakeRefusal {
    ghost code = { make_number };

    fn number(self) -> u8 {
        self as u8
    }
}

impl From<AllocError> for MakeRefusal {
    ghost from_gives = { λ _ r. r ≡ Memory };

    fn from(_error: AllocError) -> MakeRefusal {
        MakeRefusal::Memory
    }
}

impl fmt::Display for MakeRefusal {
    ghost output = { λ e. Some (make_said e) };

    fn fmt<W: fmt::Write>(&self, f: &mut fmt::Formatter<W>) -> fmt::Result {
        let number = self.number();
        write!(f, "refused {number}: no memory")
    }
}

impl Error for MakeRefusal {}
