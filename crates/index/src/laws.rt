ghost use Rattle.std.specs.Prelude.{List};
ghost use Rattle.model.specs.Rows.{Row, AllProper};
ghost use Rattle.index.specs.Indexes.{Indexes, Finds, IndexFinds};
ghost use Rattle.index.specs.declared.Index.{Index};

// The proof of the law stands behind this function.
fn index_finds()
    ensures { IndexFinds }
{}

// The index of a book is complete: every row that has a flag is found at it, and every flag of a row at that row; nothing else is.
pub fn index_finds_stands()
    ensures { (rows : List Row) (index : Index) → AllProper rows → Indexes rows index → Finds rows index }
{
    index_finds();
}
