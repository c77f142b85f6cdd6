// A numbering, and one that settles, by what they mean.
ghost use Rattle.std.specs.Prelude.{◌≡◌, ℕ, true};
ghost use Rattle.numbering.specs.Meaning.{Meaning, Lawful, KeepsLawful, Settles};

use crate::kind::NumberKind;

// Which numbers a base puts on its floods, one after another, and which copies pass for new.
pub trait Numbering {
    type Number: NumberKind;

    ghost meaning: { Self → Meaning Self.Number };

    // May this number be held or sent?
    fn lawful(&self, number: Self::Number) -> bool
        ensures { result ≡ (meaning self.now).lawful number };

    // The number that follows, or that none does.
    fn next(&self, number: Self::Number) -> Option<Self::Number>
        ensures { result ≡ (meaning self.now).next number };

    // Does a copy with this number pass for new at a sensor that holds the other?
    fn fresh(&self, copy: Self::Number, held: Self::Number) -> bool
        ensures { result ≡ (meaning self.now).fresh copy held };

    ghost follows: { (m : Self) → KeepsLawful (meaning m) };

    ghost among: { (m : Self) (s : Self.Number) → Lawful (meaning m) s → Self.Number.NumberKind.among s ≡ true };
}

// A numbering under which every sensor settles.
pub trait Settling: Numbering {
    ghost patience: { Self → ℕ };

    ghost catchup: { Self → Self.Number → Self.Number → ℕ };

    // What `bound` answers: an implementation gives the two figures, as a pair that any numbering made
    // outside can give, and `bound` adds the laws.
    fn figures(&self, held: Self::Number, base: Self::Number) -> (u64, u64)
        ensures { result ≡ (patience self.now, catchup self.now held base) };

    // Patience and catch-up count, for a sensor that holds `held` under a base that holds `base`.
    fn bound(&self, held: Self::Number, base: Self::Number) -> (u64, u64)
        ensures value { result ≡ (patience self.now, catchup self.now held base) }
        ensures laws { Settles (Self.Numbering.meaning self.now) (patience self.now) (catchup self.now) }
    {
        self.figures(held, base)
    }

    ghost settles: { (m : Self) → Settles (Self.Numbering.meaning m) (patience m) (catchup m) };
}
