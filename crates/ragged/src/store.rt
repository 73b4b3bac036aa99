ghost use Rattle.std.specs.Prelude.{◌≡◌, true, vec_len};
ghost use Rattle.ragged.specs.Parts.{ascends};

mod keeping;

// Lists one after another: all items in one store, and where each list ends in it. A list begins where the one before it ends. What stands
// past the last end is open: it was pushed and not closed yet.
#[derive(Drop)]
pub struct Lists<T> {
    items: Vec<T>,
    ends: Vec<usize>,
    ghost ordered: { ascends 0 ends.items (vec_len items) ≡ true },
}
