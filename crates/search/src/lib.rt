// One search for every case in which a call declines: the lowest place at which it holds.
#![tactic(auto)]

ghost use Rattle.std.specs.Prelude.{◌≡◌, ℕ, Bool};
ghost use Rattle.search.specs.Lowest.{lowest, IsLowest, looked_for};

// A case that is looked for at each of some places, and the fault that it is at a place, `()` where only
// the place is asked for. It is a trait, and not a closure, since a public call asks nothing of its
// caller: a closure that is lent would have to be asked to answer at every place.
pub trait Case {
    type Fault;

    ghost count: { Self → ℕ };

    ghost at: { Self → ℕ → Bool };

    ghost told: { Self → ℕ → Self.Fault };

    // How many places there are.
    fn places(&self) -> usize
        ensures { result ≡ count self.now };

    // Does the case hold at this place?
    fn holds(&self, place: usize) -> bool
        ensures { result ≡ at self.now place };

    // The fault that tells this place.
    fn fault(&self, place: usize) -> Self::Fault
        ensures { result ≡ told self.now place };
}

// The lowest place at which the case holds.
pub fn lowest<C: Case>(case: &C) -> Option<usize>
    ensures value { result ≡ lowest (C.Case.at case.now) (C.Case.count case.now) }
    ensures lowest { IsLowest (C.Case.at case.now) (C.Case.count case.now) result }
{
    for place in 0..case.places() {
        if case.holds(place) {
            return Some(place);
        }
    }
    None
}

// Nothing where the case holds nowhere, and else the fault of the lowest place.
#[tactic(auto, unfolding(crate::specs::Lowest::looked_for))]
pub fn pass<C: Case>(case: &C) -> Result<(), C::Fault>
    ensures { result ≡ looked_for (C.Case.told case.now) (C.Case.count case.now) (C.Case.at case.now) }
{
    match lowest(case) {
        Some(place) => Err(case.fault(place)),
        None => Ok(()),
    }
}
