// The books that the rules and the clauses of a story mean.
ghost use Rattle.std.specs.Prelude.{◌≡◌, map, Some, IfOk, IfErr};
ghost use Rattle.clauses.specs.Books.{clauses_of};
ghost use Rattle.table.specs.Relations.{row_of};
ghost use Rattle.table.specs.Tables.{rows_of};
ghost use Rattle.stories.specs.Refusals.{RulesRefused, ClausesRefused, book_said};
ghost use Rattle.stories.specs.declared.books.BookRefusal.TheVariants.{NotMade, NotAdded};

use clauses::clauses::Clauses;
use clauses::literal::Literal;
use model::refusal::{AddRefusal, MakeRefusal};
use std::alloc::Global;
use std::error::Error;
use std::fmt;
use table::relation::Relation;
use table::table::Table;

// Why there is no such book.
#[derive(Clone, Copy, PartialEq, Eq, Debug)]
pub enum BookRefusal {
    NotMade(MakeRefusal),
    // a rule or a clause was refused
    NotAdded(AddRefusal),
}

impl From<MakeRefusal> for BookRefusal {
    ghost from_gives = { λ e r. r ≡ NotMade e };

    fn from(refusal: MakeRefusal) -> BookRefusal {
        BookRefusal::NotMade(refusal)
    }
}

impl From<AddRefusal> for BookRefusal {
    ghost from_gives = { λ e r. r ≡ NotAdded e };

    fn from(refusal: AddRefusal) -> BookRefusal {
        BookRefusal::NotAdded(refusal)
    }
}

impl fmt::Display for BookRefusal {
    ghost output = { λ e. Some (book_said e) };

    fn fmt<W: fmt::Write>(&self, f: &mut fmt::Formatter<W>) -> fmt::Result {
        match self {
            BookRefusal::NotMade(reason) => write!(f, "{reason}"),
            BookRefusal::NotAdded(reason) => write!(f, "{reason}"),
        }
    }
}

impl Error for BookRefusal {}

// The rules as a table.
pub fn table_of(heap: Global, rules: &[Relation<usize>]) -> Result<Table, BookRefusal>
    ensures rows { IfOk result (λ t. rows_of t ≡ map row_of rules.now) }
    ensures refused { IfErr result (RulesRefused rules.now) }
{
    let mut table = Table::new(heap)?;
    for rule in rules {
        table.add(*rule)?;
    }
    Ok(table)
}

// The clauses as a book.
pub fn clauses_of(heap: Global, clauses: &[&[Literal<usize>]]) -> Result<Clauses, BookRefusal>
    ensures clauses { IfOk result (λ c. clauses_of c ≡ map (λ x. x.now) clauses.now) }
    ensures refused { IfErr result (ClausesRefused clauses.now) }
{
    let mut book = Clauses::new(heap)?;
    for clause in clauses {
        book.add(clause)?;
    }
    Ok(book)
}
