ghost use Rattle.std.specs.Prelude.{List};
ghost use Rattle.model.specs.Boxes.{Box as Sets, ◌⊆◌, Largest};
ghost use Rattle.model.specs.Rows.{Row};
ghost use Rattle.model.specs.Laws.{BoxLaws, LargestExists, LargestUnique, LargestFrom, FactsLargest, FactsFewer, LargestTold, StatesKept, AllowedKept, SinglesMeet, OrderFree, StrikeFixed, StrikePast, SupportByTuple, NumeralsCompare, NumeralsTell};

// All laws at once; their proof stands behind this function.
fn box_laws()
    ensures { BoxLaws }
{}

// The laws of boxes, rows, facts and states stand, each by its name.
pub fn box_laws_stand()
    ensures exists { LargestExists }
    ensures unique { LargestUnique }
    ensures fewer { (rows : List Row) (small large a b : Sets) → small ⊆ large → Largest rows small a → Largest rows large b → a ⊆ b }
    ensures from { LargestFrom }
    ensures facts { FactsLargest }
    ensures more { FactsFewer }
    ensures telling { LargestTold }
    ensures states { StatesKept }
    ensures allowed { AllowedKept }
    ensures singles { SinglesMeet }
    ensures orderless { OrderFree }
    ensures strikes { StrikeFixed }
    ensures past { StrikePast }
    ensures tuples { SupportByTuple }
    ensures compare { NumeralsCompare }
    ensures tell { NumeralsTell }
{
    box_laws();
}
