// Copies that other senders drown.
ghost use Rattle.std.specs.Prelude.{◌≡◌, ◌||◌, ◌==◌};
ghost use Rattle.std.specs.List.{list_any};
ghost use Rattle.air.specs.Airs.{drowned, Comes, collisions_carry, rivals};

use crate::air::{Air, sends};
use field::Link;

// How many links are looked at together.
const BLOCK: usize = 8;

// Is it another sensor, which sends? Few links need the answer, so it stands outside the loop over all of them.
fn rivals(link: Link, senders: &[u8], other: Link) -> bool
    ensures { result ≡ rivals link senders.now other }
{
    other.from != link.from && sends(senders, other.from)
}

// May one of these links go into this receiver? Sender and label are compared too, with a number that neither has in a
// field within its limits: so the bytes are compared as they lie in memory, many at once.
fn may_reach(receiver: u8, links: &[Link]) -> bool
    ensures { result ≡ list_any (λ other. other.from == 255 || (other.to == receiver || other.label == 255)) links.now }
{
    let mut may = false;
    for at in 0..links.len() {
        let other = links[at];
        may |= (other.from == 255) | (other.to == receiver) | (other.label == 255);
    }
    may
}

// Does another sensor send over one of these links into the same receiver?
fn drowned_among(link: Link, links: &[Link], senders: &[u8]) -> bool
    ensures { result ≡ drowned link links.now senders.now }
{
    for place in 0..links.len() {
        let other = links[place];
        if other.to == link.to && rivals(link, senders, other) {
            return true;
        }
    }
    false
}

// The same of all the links. They are gone over in blocks, since most blocks have no link into the receiver, and that is
// quickly seen of a fixed number of links.
fn drowned(link: Link, links: &[Link], senders: &[u8]) -> bool
    ensures { result ≡ drowned link links.now senders.now }
{
    for block in 0..links.len() / BLOCK {
        let part = &links[block * BLOCK..block * BLOCK + BLOCK];
        if may_reach(link.to, part) && drowned_among(link, part, senders) {
            return true;
        }
    }
    drowned_among(link, &links[links.len() / BLOCK * BLOCK..], senders)
}

// Over any air: a receiver that sends hears nothing, and nor does one at which two senders meet.
#[derive(Clone, Copy, PartialEq, Eq, Debug)]
pub struct Collisions<A> {
    pub below: A,
}

impl<A: Air> Air for Collisions<A> {
    ghost carries = { λ s. collisions_carry (A.Air.carries s.below) };

    #[tactic(auto, using(crate::proofs::Somewhere::comes))]
    fn carries(&self, instant: u32, link: Link, links: &[Link], senders: &[u8]) -> bool
        ensures value { result ≡ collisions_carry (A.Air.carries self.now.below) instant link links.now senders.now }
        ensures places { Comes (A.Air.carries self.now.below) instant link links.now senders.now result }
    {
        // the links last, since they are many
        !sends(senders, link.to)
            && self.below.carries(instant, link, links, senders)
            && !drowned(link, links, senders)
    }
}
