// Which copies come through.
ghost use Rattle.std.specs.Prelude.{◌≡◌, ℕ, Bool, List};
ghost use Rattle.field.specs.declared.Link.{Link};
ghost use Rattle.air.specs.Airs.{sends};

use field::Link;

// An air: does a copy come over a link at an instant, where these are the links, and these the sender bytes?
pub trait Air {
    ghost carries: { Self → ℕ → Link → List Link → List ℕ → Bool };

    fn carries(&self, instant: u32, link: Link, links: &[Link], senders: &[u8]) -> bool
        ensures { result ≡ carries self.now instant link links.now senders.now };
}

// An air that is lent is the same air.
impl<A: Air> Air for &A {
    ghost carries = { λ s. A.Air.carries s.now };

    fn carries(&self, instant: u32, link: Link, links: &[Link], senders: &[u8]) -> bool {
        (**self).carries(instant, link, links, senders)
    }
}

// Does a sensor send? Its byte is 1 then; a byte that is not there says no.
pub fn sends(senders: &[u8], sensor: u8) -> bool
    ensures { result ≡ sends senders.now sensor }
{
    senders.get(usize::from(sensor)) == Some(&1)
}
