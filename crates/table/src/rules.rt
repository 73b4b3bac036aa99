ghost use Rattle.std.specs.Prelude.{◌≡◌, ℕ, true, false, List};
ghost use Rattle.model.specs.Boxes.{Box as Sets};
ghost use Rattle.model.specs.Rows.{On, Distinct};
ghost use Rattle.model.specs.Strikes.{Struck};
ghost use Rattle.model.specs.declared.domain.Domain.{Domain};
ghost use Rattle.model.specs.declared.domain.Domain.TheVariants.{Empty};
ghost use Rattle.table.specs.Relations.{flags_of, row_of};
ghost use Rattle.table.specs.Rules.{BoolRules, ClosureExists, Closure, rules_of, sets_of, some_empty};
ghost use Rattle.table.specs.declared.relation.Relation.{Relation};

// The laws of the rules at once; their proof stands behind this function.
fn bool_rules()
    ensures { BoolRules }
{}

// The rules of the proof system BOOL stand: a strike leaves the flags of a row exactly what they lead to, or empties them all if that has an
// empty set; and they always lead somewhere.
pub fn bool_rules_stand()
    ensures strike { (r : Relation ℕ) → Distinct (flags_of r) → (before after : Sets) → Struck (row_of r) before after → (c : List Domain) → Closure (rules_of r) (sets_of before r) c → (some_empty c ≡ true → (f : ℕ) → On (row_of r) f → after f ≡ Empty) × (some_empty c ≡ false → sets_of after r ≡ c) }
    ensures exists { ClosureExists }
{
    bool_rules();
}
