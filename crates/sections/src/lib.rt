// A file cut into its parts: rows, links, losses and acts, each a row of records.
#![tactic(auto)]

ghost use Rattle.std.specs.Prelude.{◌≡◌};
ghost use Rattle.records.specs.Records.{records};
ghost use Rattle.sections.specs.Parts.{other_kind, leading, first_records, later_records, row_records, link_records, loss_records, act_records};

use records::{Kind, Record, record_count};
use search::{Case, lowest};

// A record that is not of a kind.
#[derive(Drop)]
struct OtherKind<'a> {
    file: &'a [u8],
    kind: Kind,
}

impl Case for OtherKind<'_> {
    type Fault = ();

    ghost count = { λ s. records s.file.now };

    ghost at = { λ s. other_kind s.file.now s.kind };

    ghost told = { λ _ _. tt };

    fn places(&self) -> usize {
        record_count(self.file)
    }

    fn holds(&self, place: usize) -> bool {
        let file = self.file;
        !Record { file, place }.is(self.kind)
    }

    fn fault(&self, _place: usize) {}
}

// How many records at the front are of a kind.
#[tactic(auto, unfolding(crate::specs::Parts::leading))]
fn leading(file: &[u8], kind: Kind) -> usize
    ensures { result ≡ leading file.now kind }
{
    lowest(&OtherKind { file, kind }).unwrap_or(record_count(file))
}

// The first records, and those after them.
fn split_records(file: &[u8], count: usize) -> (&[u8], &[u8])
    ensures first { result.0.now ≡ first_records count file.now }
    ensures later { result.1.now ≡ later_records count file.now }
{
    if count > record_count(file) {
        return (file, &[]);
    }
    file.split_at(12 * count)
}

// The parts of a file.
#[derive(Clone, Copy)]
pub struct Parts<'a> {
    pub rows: &'a [u8],
    pub links: &'a [u8],
    pub losses: &'a [u8],
    pub acts: &'a [u8],
}

// Cuts a file: n rows follow its first record, then come links, then losses, and what is left are acts.
pub fn cut(file: &[u8]) -> Parts
    ensures rows { result.rows.now ≡ row_records file.now }
    ensures links { result.links.now ≡ link_records file.now }
    ensures losses { result.losses.now ≡ loss_records file.now }
    ensures acts { result.acts.now ≡ act_records file.now }
{
    let (_, rest) = split_records(file, 1);
    let (rows, rest) = split_records(rest, usize::from(Record { file, place: 0 }.byte(2)));
    let (links, rest) = split_records(rest, leading(rest, Kind::Link));
    let (losses, acts) = split_records(rest, leading(rest, Kind::Loss));
    Parts {
        rows,
        links,
        losses,
        acts,
    }
}
