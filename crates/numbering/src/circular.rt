// Circular: a copy up to half way round the ring ahead passes for new.
ghost use Rattle.numbering.specs.Four.{half, circular_fresh, circular_catch_up};
ghost use Rattle.numbering.specs.RingSettles.{circular_settles};

use crate::ring::Ring;
use crate::ringed::{Ringed, Rule};

pub type Circular = Ringed<UpToHalf>;

#[derive(Clone, Copy)]
pub struct UpToHalf;

impl Rule for UpToHalf {
    ghost freshness = { circular_fresh };

    ghost patience = { half };

    ghost catchup = { circular_catch_up };

    ghost settles = { circular_settles };

    fn fresh(ring: Ring, copy: u8, held: u8) -> bool {
        let steps = ring.distance(copy, held);
        1 <= steps && steps <= u16::from(ring.half())
    }

    fn figures(ring: Ring) -> (u64, u64) {
        let patience = u64::from(ring.half());
        (patience, u64::from(ring.smax()) + patience - 1)
    }
}
