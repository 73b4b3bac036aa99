ghost use Rattle.std.specs.Prelude.{◌≡◌, ℕ, ◌<◌, true, false, length, set, replicate, MatchBool, ◌≢◌, slice_index_or, slice_set};
ghost use Rattle.model.specs.Boxes.{Dead, Alive, open_box, with_set};
ghost use Rattle.model.specs.Domains.{cut_set};
ghost use Rattle.model.specs.Facts.{cut};
ghost use Rattle.model.specs.Strikes.{CutSays};

use crate::domain::Domain;
use crate::fact::Fact;
use crate::strike::Strike;

// A box: a set of values for each of 256 flags. Specifications see its layout only by the view `at`, and other code only by its methods.
#[derive(Clone, Copy, PartialEq, Eq, Debug)]
pub struct FlagBox {
    sets: [Domain; 256],
    ghost whole: { length sets ≡ 256 },
}

// The layout: a list of 256 sets, that of flag 0 first. These four and the derived `==`, with the proofs of what calls the four and the lemmas
// in Holding.antt, are all that knows it.
fn open_sets() -> [Domain; 256]
    ensures { result ≡ replicate 256 Domain.Open }
{
    [Domain::Open; 256]
}

fn read(sets: &[Domain; 256], flag: u8) -> Domain
    ensures { (result ≡ slice_index_or sets.now flag Domain.Empty) × (length sets.now ≡ 256) }
{
    sets[flag as usize]
}

fn write(sets: &mut [Domain; 256], flag: u8, value: Domain)
    ensures { (sets.new ≡ slice_set sets.old flag value) × (length sets.old ≡ 256) }
{
    let place = flag as usize;
    sets[place] = value;
}

fn some_empty(sets: &[Domain; 256]) -> bool
    ensures { MatchBool result ((k : ℕ) × (k < 256) × (slice_index_or sets.now k Domain.Open ≡ Domain.Empty)) ((k : ℕ) → k < 256 → slice_index_or sets.now k Domain.Open ≢ Domain.Empty) }
{
    sets.contains(&Domain::Empty)
}

impl FlagBox {
    ghost use Rattle.model.specs.View.{at};

    // The box in which every flag is open.
    pub fn all_open() -> FlagBox
        ensures { at result ≡ open_box }
    {
        FlagBox { sets: open_sets() }
    }

    // The set of a flag.
    pub fn get(&self, flag: u8) -> Domain
        ensures { result ≡ at self.now flag }
    {
        read(&self.sets, flag)
    }

    // Gives a flag another set.
    pub fn put(&mut self, flag: u8, domain: Domain)
        ensures { at self.new ≡ with_set (at self.old) flag domain }
    {
        write(&mut self.sets, flag, domain);
    }

    // Leaves a flag no value but this one, and answers the set that it then has.
    pub fn cut(&mut self, flag: u8, value: bool) -> Domain
        ensures left { result ≡ cut_set (at self.old flag) value }
        ensures after { at self.new ≡ cut (at self.old) flag value }
    {
        let left = self.get(flag).cut(value);
        self.put(flag, left);
        left
    }

    // Makes a fact true: leaves its flag no value but its own, and says what that did.
    pub fn force(&mut self, fact: Fact) -> Strike
        ensures after { at self.new ≡ cut (at self.old) fact.flag fact.value }
        ensures says { CutSays result (at self.old fact.flag) (cut_set (at self.old fact.flag) fact.value) }
    {
        let before = self.get(fact.flag);
        let after = self.cut(fact.flag, fact.value);
        if after == Domain::Empty {
            Strike::Dead
        } else if after == before {
            Strike::Unchanged
        } else {
            Strike::Changed
        }
    }

    // Whether some flag has no value left.
    pub fn is_dead(&self) -> bool
        ensures dead { result ≡ true → Dead (at self.now) }
        ensures alive { result ≡ false → Alive (at self.now) }
    {
        some_empty(&self.sets)
    }
}
