ghost use Rattle.std.specs.Prelude.{◌≡◌, List};
ghost use Rattle.model.specs.Boxes.{Box as Sets};
ghost use Rattle.model.specs.Rows.{Row};
ghost use Rattle.narrowing.specs.Narrowing.{Narrowed};
ghost use Rattle.indexed.specs.Narrowing.{OrdersAgree};
ghost use Rattle.narrowing.specs.declared.Verdict.{Verdict};
ghost use Rattle.narrowing.specs.declared.Verdict.TheVariants.{Alive};

// The proof of the law stands behind this function.
fn orders_agree()
    ensures { OrdersAgree }
{}

// The order of strikes does not matter: of two narrowings of one box over the same rows, under whatever schedulers, both come to the same
// verdict, and where that is alive, to the same box.
pub fn orders_agree_stands()
    ensures { (rows : List Row) (before one other : Sets) (x y : Verdict) → Narrowed rows before one x → Narrowed rows before other y → (x ≡ y) × (x ≡ Alive → one ≡ other) }
{
    orders_agree();
}
