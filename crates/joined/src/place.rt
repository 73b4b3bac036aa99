ghost use Rattle.std.specs.Prelude.{◌≡◌};
ghost use Rattle.joined.specs.Places.{place};

// Where the row of a number stands: in the first book or in the second, under a number of that book.
#[derive(Clone, Copy)]
pub enum Place {
    First(u16),
    Second(u16),
}

// The place of a row number, given how many rows the first book has. Number 65,535 is past the rows that have a number, and no book is asked
// for it: in the second book it would come down to a lower number, which may be that of a row.
pub fn place_of(row: u16, first_count: u16) -> Option<Place>
    ensures { result ≡ place row first_count }
{
    if row < first_count {
        Some(Place::First(row))
    } else if row < u16::MAX {
        Some(Place::Second(row - first_count))
    } else {
        None
    }
}
