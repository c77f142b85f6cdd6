// The ends of links and losses, and the limits of links.
ghost use Rattle.std.specs.Prelude.{◌≡◌};
ghost use Rattle.field.specs.Rows.{ends_of, ends_within, link_keeps, joins};

use crate::parts::{Link, Loss};

// Two sensors, of which the second may hear the first.
#[derive(Clone, Copy, PartialEq, Eq, Debug)]
pub struct Ends {
    pub from: u8,
    pub to: u8,
}

// One for each that has ends: the fields are each one's own.
impl From<Link> for Ends {
    ghost from_gives = { λ link r. r ≡ ends_of link.from link.to };

    fn from(link: Link) -> Ends {
        Ends {
            from: link.from,
            to: link.to,
        }
    }
}

impl From<Loss> for Ends {
    ghost from_gives = { λ loss r. r ≡ ends_of loss.from loss.to };

    fn from(loss: Loss) -> Ends {
        Ends {
            from: loss.from,
            to: loss.to,
        }
    }
}

impl Ends {
    // Are both sensors of a field of n?
    pub fn are_within(self, n: u8) -> bool
        ensures { result ≡ ends_within n self.from self.to }
    {
        self.from < n && self.to < n
    }
}

impl Link {
    // Two ends, none of them the base's ear, and a label up to 100?
    pub fn keeps(self) -> bool
        ensures { result ≡ link_keeps self }
    {
        self.from != self.to && self.to != 0 && self.label <= 100
    }

    // Does it go from one sensor to the other, whatever its label?
    pub fn joins(self, ends: Ends) -> bool
        ensures { result ≡ joins self ends.from ends.to }
    {
        Ends::from(self) == ends
    }
}
