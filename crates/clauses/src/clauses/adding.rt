ghost use Rattle.std.specs.Prelude.{◌≡◌, [], length, MatchResult};
ghost use Rattle.model.specs.declared.refusal.MakeRefusal.TheVariants.{Memory};
ghost use Rattle.ragged.specs.Parts.{total_length};
ghost use Rattle.clauses.specs.Books.{clauses_of, Added};
ghost use Rattle.clauses.specs.Refusals.{refusal};

use super::Clauses;
use crate::literal::Literal;
use crate::refusing::{MOST_CLAUSES, MOST_LITERALS, check};
use crate::storing::put;
use model::refusal::{AddRefusal, MakeRefusal};
use ragged::Lists;
use std::alloc::Global;

impl Clauses {
    // No clause, with the memory for all that may be held.
    pub fn new(heap: Global) -> Result<Clauses, MakeRefusal>
        ensures { MatchResult result (λ c. clauses_of c ≡ []) (λ e. e ≡ Memory) }
    {
        let lists = Lists::new(heap, MOST_CLAUSES, MOST_LITERALS)?;
        Ok(Clauses { lists })
    }

    // Adds a clause after the others, or says why not: it has no literal, a flag is above 255, a flag stands twice in it, there is no room
    // for it, looked at in this order.
    pub fn add(&mut self, clause: &[Literal<usize>]) -> Result<(), AddRefusal>
        ensures { Added (refusal (length (clauses_of self.old)) (total_length (clauses_of self.old)) clause.now) clause.now self.old self.new result }
    {
        check(clause, self.lists.len(), self.lists.item_count())?;
        put(&mut self.lists, clause)
    }
}
