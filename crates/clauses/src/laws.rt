ghost use Rattle.std.specs.Prelude.{◌≡◌, ℕ, ◌<◌, ◌⊎◌, ◌↔◌, List, length, ◌≢◌};
ghost use Rattle.model.specs.Boxes.{Box as Sets};
ghost use Rattle.model.specs.Domains.{only};
ghost use Rattle.model.specs.Facts.{cut};
ghost use Rattle.model.specs.Rows.{Valuation, On, Meets};
ghost use Rattle.model.specs.Strikes.{Emptied, Strikes};
ghost use Rattle.model.specs.declared.domain.Domain.TheVariants.{Empty};
ghost use Rattle.model.specs.declared.strike.Strike.{Strike};
ghost use Rattle.model.specs.declared.strike.Strike.TheVariants.{Unchanged, Changed, Dead};
ghost use Rattle.clauses.specs.Literals.{row_of};
ghost use Rattle.clauses.specs.UnitRule.{Among, CanBeTrue, ClauseRule};
ghost use Rattle.clauses.specs.declared.literal.Literal.{Literal};

// The laws of the rule at once; their proof stands behind this function.
fn clause_rule()
    ensures { ClauseRule }
{}

// The rule of a clause stands. A strike of a clause with an empty flag, or of which no literal can be true, is dead and leaves every flag of it
// empty; else, if only one literal can be true, that one is made true, and if two different ones can, nothing is altered. And values meet a
// clause exactly when some literal of it is true.
pub fn clause_rule_stands()
    ensures dies { (ls : List (Literal ℕ)) (before after : Sets) (answer : Strike) → 0 < length ls → Strikes (row_of ls) before after answer → Emptied (row_of ls) before ⊎ ((l : Literal ℕ) → CanBeTrue ls before l → ⊥) → (answer ≡ Dead) × ((f : ℕ) → On (row_of ls) f → after f ≡ Empty) }
    ensures forces { (ls : List (Literal ℕ)) (before after : Sets) (answer : Strike) → Strikes (row_of ls) before after answer → (Emptied (row_of ls) before → ⊥) → (l : Literal ℕ) → CanBeTrue ls before l → ((m : Literal ℕ) → CanBeTrue ls before m → m ≡ l) → (after ≡ cut before l.flag l.positive) × (before l.flag ≡ only l.positive → answer ≡ Unchanged) × ((before l.flag ≢ only l.positive) → answer ≡ Changed) }
    ensures rests { (ls : List (Literal ℕ)) (before after : Sets) (answer : Strike) → Strikes (row_of ls) before after answer → (Emptied (row_of ls) before → ⊥) → (l m : Literal ℕ) → CanBeTrue ls before l → CanBeTrue ls before m → (l ≢ m) → (after ≡ before) × (answer ≡ Unchanged) }
    ensures met { (ls : List (Literal ℕ)) (s : Valuation) → Meets (row_of ls) s ↔ ((l : Literal ℕ) × Among l ls × (s l.flag ≡ l.positive)) }
{
    clause_rule();
}
