// Whether links join two sensors.
ghost use Rattle.std.specs.Prelude.{◌≡◌};
ghost use Rattle.field.specs.Rows.{joins};
ghost use Rattle.vetting.specs.Cases.{holds_at, linked};

use field::{Ends, Link};
use search::{Case, lowest};

// A link that joins two ends, among the first. In a file, where `checking` looks, a link is a record.
#[derive(Drop)]
struct Joining<'a> {
    links: &'a [Link],
    count: usize,
    ends: Ends,
}

impl Case for Joining<'_> {
    type Fault = ();

    ghost count = { λ s. s.count };

    ghost at = { λ s. holds_at (λ link. joins link s.ends.from s.ends.to) s.links.now };

    ghost told = { λ _ _. tt };

    fn places(&self) -> usize {
        self.count
    }

    fn holds(&self, place: usize) -> bool {
        let ends = self.ends;
        self.links.get(place).is_some_and(|link| link.joins(ends))
    }

    fn fault(&self, _place: usize) {}
}

// Does one of the first links join these ends? A slice would first need a proof that there are so many.
pub fn linked(links: &[Link], count: usize, ends: Ends) -> bool
    ensures { result ≡ linked links.now count ends.from ends.to }
{
    lowest(&Joining { links, count, ends }).is_some()
}
