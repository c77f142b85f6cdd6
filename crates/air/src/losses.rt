// Copies that are lost as listed.
ghost use Rattle.air.specs.Airs.{listed, losses_carry};

use crate::air::Air;
use field::{Link, Loss};

// Over any air: a copy that is listed is lost.
#[derive(Clone, Copy, PartialEq, Eq, Debug)]
pub struct Losses<'x, A> {
    pub listed: &'x [Loss],
    pub below: A,
}

impl<A: Air> Air for Losses<'_, A> {
    ghost carries = { λ s. losses_carry s.listed.now (A.Air.carries s.below) };

    fn carries(&self, instant: u32, link: Link, links: &[Link], senders: &[u8]) -> bool {
        let loss = Loss {
            from: link.from,
            to: link.to,
            instant,
        };
        !self.listed.contains(&loss) && self.below.carries(instant, link, links, senders)
    }
}
