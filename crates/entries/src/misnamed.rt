// Rows that are called damages, and damages that are called rows: their records are alike.
ghost use Rattle.std.specs.Prelude.{◌≡◌, length};
ghost use Rattle.search.specs.Lowest.{lowest};
ghost use Rattle.entries.specs.Misnamed.{rows_said, misnamed_at, first_misnamed};

use crate::entry::Entry;
use search::{Case, lowest};

// How many rows the first line says that there are.
fn rows_said(entries: &[Entry]) -> usize
    ensures { result ≡ rows_said entries.now }
{
    match entries.first() {
        Some(Entry::Field(head)) => usize::from(head.n),
        _ => 0,
    }
}

// An entry whose first word is that of the other.
#[derive(Drop)]
struct Misnamed<'a> {
    entries: &'a [Entry],
}

impl Case for Misnamed<'_> {
    type Fault = ();

    ghost count = { λ s. length s.entries.now };

    ghost at = { λ s. misnamed_at s.entries.now };

    ghost told = { λ _ _. tt };

    fn places(&self) -> usize {
        self.entries.len()
    }

    fn holds(&self, place: usize) -> bool {
        match self.entries.get(place) {
            Some(Entry::Row(_)) => place > rows_said(self.entries),
            Some(Entry::Damage(_)) => place <= rows_said(self.entries),
            _ => false,
        }
    }

    fn fault(&self, _place: usize) {}
}

// The first entry that is called a row past the rows, or a damage among them.
#[tactic(auto, unfolding(crate::specs::Misnamed::first_misnamed))]
pub fn first_misnamed(entries: &[Entry]) -> Option<usize>
    ensures { result ≡ first_misnamed entries.now }
{
    lowest(&Misnamed { entries })
}
