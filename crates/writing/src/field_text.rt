// A field, as the bytes of a file.
ghost use Rattle.std.specs.Prelude.{◌≡◌, [], take, IfOk};
ghost use Rattle.loading.specs.Same.{LoadsAs};
ghost use Rattle.recording.specs.Bytes.{field_bytes};
ghost use Rattle.vetting.specs.Vetted.{vetted};
ghost use Rattle.writing.specs.Answers.{write_answer, write_page};

use filed::Filed;
use page::{Pen, Text, write};
use recording::{Records, head_record, row_record};
use refusal::RunFault;
use vetting::Draft;

#[derive(Drop)]
struct FieldText<'a, 'n, 'r, 'l, 'x, N: Filed> {
    draft: &'a Draft<'n, 'r, 'l, 'x, N>,
}

impl<'a, 'n, 'r, 'l, 'x, N: Filed> Text for FieldText<'a, 'n, 'r, 'l, 'x, N> {
    ghost text = { λ s. let d = s.draft.now in field_bytes N.Number.NumberKind.worth (N.Filed.coded d.rules.numbering.now) (N.Filed.top d.rules.numbering.now) d.rules.settings d.rows.now d.links.now d.losses.now };

    fn put(&self, pen: &mut Pen) {
        let rules = &self.draft.rules;
        let head = head_record(
            rules.numbering.code(),
            rules.numbering.smax(),
            rules.settings,
        );
        pen.bytes(&head);
        for (sensor, row) in (0..rules.settings.n).zip(self.draft.rows) {
            pen.bytes(&row_record(sensor, *row));
        }
        Records(self.draft.links).put(pen);
        Records(self.draft.losses).put(pen);
    }
}

// Writes a field: the part of a file before its acts. Answers how many bytes it has.
pub fn write_field<N: Filed>(draft: &Draft<N>, out: &mut [u8]) -> Result<usize, RunFault>
    ensures value { let d = draft.now in result ≡ write_answer (vetted (N.Numbering.meaning d.rules.numbering.now) d.rules.settings d.rows.now d.links.now d.losses.now) (field_bytes N.Number.NumberKind.worth (N.Filed.coded d.rules.numbering.now) (N.Filed.top d.rules.numbering.now) d.rules.settings d.rows.now d.links.now d.losses.now) out.old }
    ensures out { let d = draft.now in out.new ≡ write_page (vetted (N.Numbering.meaning d.rules.numbering.now) d.rules.settings d.rows.now d.links.now d.losses.now) (field_bytes N.Number.NumberKind.worth (N.Filed.coded d.rules.numbering.now) (N.Filed.top d.rules.numbering.now) d.rules.settings d.rows.now d.links.now d.losses.now) out.old }
    ensures same { let d = draft.now in IfOk result (λ size. LoadsAs N.Number.NumberKind.of (N.Filed.coded d.rules.numbering.now) (N.Filed.top d.rules.numbering.now) d.rules.settings d.rows.now d.links.now d.losses.now [] (take size out.new)) }
{
    draft.vet()?;
    write(&FieldText { draft }, out).ok_or(RunFault::NoRoom)
}
