// How many rows, links, losses and acts there are, or a buffer takes.
ghost use Rattle.std.specs.Prelude.{◌≡◌};
ghost use Rattle.loading.specs.Loads.{counts_of, roomy};

use records::record_count;
use refusal::RunFault;
use sections::Parts;

#[derive(Clone, Copy, PartialEq, Eq, Debug)]
pub struct Counts {
    pub rows: usize,
    pub links: usize,
    pub losses: usize,
    pub acts: usize,
}

impl From<Parts<'_>> for Counts {
    ghost from_gives = { λ parts r. r ≡ counts_of parts.rows.now parts.links.now parts.losses.now parts.acts.now };

    fn from(parts: Parts<'_>) -> Counts {
        Counts {
            rows: record_count(parts.rows),
            links: record_count(parts.links),
            losses: record_count(parts.losses),
            acts: record_count(parts.acts),
        }
    }
}

impl Counts {
    // These, where buffers take so many.
    pub fn fit(self, room: Counts) -> Result<Counts, RunFault>
        ensures { result ≡ roomy self room }
    {
        if self.rows <= room.rows
            && self.links <= room.links
            && self.losses <= room.losses
            && self.acts <= room.acts
        {
            Ok(self)
        } else {
            Err(RunFault::ShortBuffer)
        }
    }
}
