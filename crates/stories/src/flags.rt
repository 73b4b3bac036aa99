ghost use Rattle.std.specs.Prelude.{◌≡◌, if◌then◌else◌, codes};
ghost use Rattle.stories.specs.Words.{name_of};

// The names of flags. A flag is known by the place of its name.
#[derive(Clone, Copy)]
pub struct Flags<'a> {
    pub names: &'a [&'a str],
}

impl<'a> Flags<'a> {
    // The name of a flag of a rule or a fact.
    pub fn name(&self, flag: usize) -> &'a str
        ensures { result.now ≡ name_of self.now.names.now flag }
    {
        self.names
            .get(flag)
            .copied()
            .unwrap_or("a flag without a name")
    }
}

pub fn yes_or_no(value: bool) -> &'static str
    ensures { result.now ≡ (if value then codes "yes" else codes "no") }
{
    if value { "yes" } else { "no" }
}
