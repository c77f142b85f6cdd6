// What buffers are filled with.
ghost use Rattle.std.specs.Prelude.{◌≡◌};
ghost use Rattle.filling.specs.Filled.{filled};
ghost use Rattle.records.specs.Records.{records};
ghost use Rattle.loading.specs.Loads.{rows_filled, links_filled, losses_filled, acts_filled};

use field::{Act, Link, Loss, Row};
use filling::{Source, fill};
use numbering::NumberKind;
use reading::FromRecord;
use records::{Record, record_count};
use sections::Parts;
use std::marker::PhantomData;

// What the records of a file are read as.
#[derive(Drop)]
struct ItemsIn<'a, T> {
    file: &'a [u8],
    item: PhantomData<T>,
}

impl<T: FromRecord> Source for ItemsIn<'_, T> {
    type Item = T;

    ghost size = { λ s. records s.file.now };

    ghost at = { λ s. T.FromRecord.read s.file.now };

    fn places(&self) -> usize {
        record_count(self.file)
    }

    fn item(&self, place: usize) -> Option<T> {
        let file = self.file;
        T::from_record(Record { file, place })
    }
}

// Fills the front of a buffer with what records are read as; the rest of it stays.
fn fill_from<T: FromRecord>(out: &mut [T], file: &[u8])
    ensures { out.new ≡ filled (T.FromRecord.read file.now) (records file.now) out.old }
{
    let item = PhantomData;
    fill(&ItemsIn::<T> { file, item }, out);
}

// Fills the front of four buffers with the parts of a file.
pub fn fill_parts<K: NumberKind>(
    parts: Parts,
    rows: &mut [Row<K>],
    links: &mut [Link],
    losses: &mut [Loss],
    acts: &mut [Act<K>],
)
    ensures rows { rows.new ≡ rows_filled K.NumberKind.of parts.entry.rows.now rows.old }
    ensures links { links.new ≡ links_filled parts.entry.links.now links.old }
    ensures losses { losses.new ≡ losses_filled parts.entry.losses.now losses.old }
    ensures acts { acts.new ≡ acts_filled K.NumberKind.of parts.entry.acts.now acts.old }
{
    fill_from(rows, parts.rows);
    fill_from(links, parts.links);
    fill_from(losses, parts.losses);
    fill_from(acts, parts.acts);
}
