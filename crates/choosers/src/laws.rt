ghost use Rattle.std.specs.Prelude.{◌≡◌, ℕ, Bool, true, false, ◌↔◌, List, Some, None};
ghost use Rattle.model.specs.Boxes.{Box as Sets};
ghost use Rattle.choosers.specs.Choices.{rising, ranked};
ghost use Rattle.choosers.specs.Orders.{NoneChoosable, ComesFirst, RanksFirst, RisingOrder, RankedOrder};

// The proofs of the laws stand behind these two functions.
fn rising_order()
    ensures { RisingOrder }
{}

fn ranked_order()
    ensures { RankedOrder }
{}

// The rising chooser answers the lowest flag that can be chosen, with 0, and none exactly when no flag can.
pub fn rising_order_stands()
    ensures picked { (b : Sets) (n f : ℕ) (v : Bool) → (rising b n ≡ Some (f, v)) ↔ ((v ≡ false) × ComesFirst b n f) }
    ensures none { (b : Sets) (n : ℕ) → (rising b n ≡ None) ↔ NoneChoosable b n }
{
    rising_order();
}

// The ranked chooser answers, of the flags that can be chosen, the one of the highest rank, the lowest of several, with 1, and none
// exactly when no flag can.
pub fn ranked_order_stands()
    ensures picked { (ranks : List ℕ) (b : Sets) (n f : ℕ) (v : Bool) → (ranked ranks b n ≡ Some (f, v)) ↔ ((v ≡ true) × RanksFirst ranks b n f) }
    ensures none { (ranks : List ℕ) (b : Sets) (n : ℕ) → (ranked ranks b n ≡ None) ↔ NoneChoosable b n }
{
    ranked_order();
}
