// A numbering over a ring, by its rule.
ghost use Rattle.std.specs.Prelude.{◌≡◌, ℕ, ◌<◌, ◌≤◌, Bool, MatchOption};
ghost use Rattle.numbering.specs.Four.{ring};
ghost use Rattle.numbering.specs.Meaning.{Settles};
ghost use Rattle.std.proofs.Common.{rules};

use crate::numbering::{Numbering, Settling};
use crate::ring::Ring;
use std::marker::PhantomData;

// Which copies pass for new in a ring, and how soon a sensor settles. The ghost members take smax
// first. The rings are this crate's own, and so are the rules.
pub trait Rule: Copy {
    ghost freshness: { ℕ → ℕ → ℕ → Bool };

    ghost patience: { ℕ → ℕ };

    ghost catchup: { ℕ → ℕ };

    fn fresh(ring: Ring, copy: u8, held: u8) -> bool
        ensures { result ≡ freshness ring.smax copy held };

    fn figures(ring: Ring) -> (u64, u64)
        ensures { result ≡ (patience ring.smax, catchup ring.smax) };

    ghost settles: { (smax : ℕ) → 2 ≤ smax → Settles (ring smax (freshness smax)) (patience smax) (λ x b. catchup smax) };
}

#[derive(Clone, Copy)]
pub struct Ringed<R> {
    ring: Ring,
    rule: PhantomData<R>,
}

impl<R: Rule> Ringed<R> {
    // None exactly where smax is out of 2 to 255.
    pub fn new(smax: u8) -> Option<Ringed<R>>
        ensures { MatchOption result (smax < 2) (λ m. m.ring.smax ≡ smax) }
    {
        let ring = Ring::new(smax)?;
        Some(Ringed {
            ring,
            rule: PhantomData,
        })
    }

    pub fn smax(&self) -> u8
        ensures { result ≡ self.now.ring.smax }
    {
        self.ring.smax()
    }
}

impl<R: Rule> Numbering for Ringed<R> {
    type Number = u8;

    ghost meaning = { λ m. ring m.ring.smax (R.freshness m.ring.smax) };

    ghost follows = { Prim.search rules };

    ghost among = { Prim.search rules };

    fn lawful(&self, number: u8) -> bool {
        self.ring.has(number)
    }

    fn next(&self, number: u8) -> Option<u8> {
        Some(self.ring.next(number))
    }

    fn fresh(&self, copy: u8, held: u8) -> bool {
        R::fresh(self.ring, copy, held)
    }
}

impl<R: Rule> Settling for Ringed<R> {
    ghost patience = { λ m. R.patience m.ring.smax };

    ghost catchup = { λ m _ _. R.catchup m.ring.smax };

    ghost settles = { λ m. R.settles m.ring.smax m.ring.least };

    fn figures(&self, _held: u8, _base: u8) -> (u64, u64) {
        R::figures(self.ring)
    }
}
