// Differentiated: a copy passes for new when its number is another one.
ghost use Rattle.numbering.specs.Four.{differs};
ghost use Rattle.numbering.specs.RingSettles.{differentiated_settles};

use crate::ring::Ring;
use crate::ringed::{Ringed, Rule};

pub type Differentiated = Ringed<AnyOther>;

#[derive(Clone, Copy)]
pub struct AnyOther;

impl Rule for AnyOther {
    ghost freshness = { λ _. differs };

    ghost patience = { λ smax. smax };

    ghost catchup = { λ smax. smax };

    ghost settles = { differentiated_settles };

    fn fresh(_ring: Ring, copy: u8, held: u8) -> bool {
        copy != held
    }

    fn figures(ring: Ring) -> (u64, u64) {
        let smax = u64::from(ring.smax());
        (smax, smax)
    }
}
