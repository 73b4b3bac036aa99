ghost use Rattle.std.specs.Prelude.{◌≡◌};
ghost use Rattle.model.specs.Domains.{has, cut_set};

// The set of the values that a flag may still have.
#[derive(Clone, Copy, PartialEq, Eq, Debug)]
pub enum Domain {
    Empty,
    Zero,
    One,
    Open,
}

impl Domain {
    // Whether the set has the value.
    pub fn contains(self, value: bool) -> bool
        ensures { result ≡ has self value }
    {
        matches!(
            (self, value),
            (Domain::Open, _) | (Domain::One, true) | (Domain::Zero, false)
        )
    }

    // The set without the other value.
    pub fn cut(self, value: bool) -> Domain
        ensures { result ≡ cut_set self value }
    {
        match (self, value) {
            (Domain::Zero | Domain::Open, false) => Domain::Zero,
            (Domain::One | Domain::Open, true) => Domain::One,
            _ => Domain::Empty,
        }
    }
}
