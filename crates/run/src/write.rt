// The field of a run, written as it stands.
ghost use Rattle.std.specs.Prelude.{◌≡◌, take, IfOk};
ghost use Rattle.run.specs.Returning.{WriteLaws};
ghost use Rattle.run.specs.Standing.{between, field_given};
ghost use Rattle.run.specs.Writing.{LoadsAsItStands, filing_given, write_answers, write_leaves};

use crate::lending::{Lent, front};
use crate::states::Idle;
use field::Loss;
use filed::Filed;
use refusal::RunFault;
use vetting::Draft;
use writing::write_field;

impl Idle {
    /// Writes the field as it stands to the front of a page, and answers how many bytes that are: the run's settings, the rows of its
    /// n sensors, the told links, and these losses, in their order. What is written loads as that field (`same`); no sender byte is
    /// looked at. A file that is loaded, begun and then written gives its bytes before its first act (`laws`).
    ///
    /// Looked for are 6 to 10 in what is there, each everywhere before the next, and the lowest place is told: of a link or a loss
    /// (6), a link (7), the 257th loss (8), a sensor's row (9), a loss (10). Then come 11, where rows are fewer than n or links fewer
    /// than were told, and 15, where the page has no room, both at place 0. A refusal leaves the page as it was, and what lies behind
    /// the bytes stays.
    pub fn write<N: Filed, D, A>(
        &self,
        lent: &Lent<N, D, A>,
        losses: &[Loss],
        out: &mut [u8],
    ) -> Result<usize, RunFault>
        ensures value { let filing = filing_given N.Filed.coded N.Filed.top N.Number.NumberKind.of N.Number.NumberKind.worth lent.now in result ≡ write_answers (field_given N.Numbering.meaning self.now.progress lent.now) (between self.now lent.now) losses.now filing out.old }
        ensures out { let filing = filing_given N.Filed.coded N.Filed.top N.Number.NumberKind.of N.Number.NumberKind.worth lent.now in out.new ≡ write_leaves (field_given N.Numbering.meaning self.now.progress lent.now) (between self.now lent.now) losses.now filing out.old }
        ensures same { let filing = filing_given N.Filed.coded N.Filed.top N.Number.NumberKind.of N.Number.NumberKind.worth lent.now in IfOk result (λ size. LoadsAsItStands (field_given N.Numbering.meaning self.now.progress lent.now) (between self.now lent.now) losses.now filing (take size out.new)) }
        ensures laws { WriteLaws (N.Numbering.meaning lent.now.numbering.now) (filing_given N.Filed.coded N.Filed.top N.Number.NumberKind.of N.Number.NumberKind.worth lent.now) }
    {
        let draft = Draft {
            rules: self.progress.rules(lent),
            rows: &*lent.rows,
            links: front(lent.links, self.progress.count),
            losses,
        };
        if lent.links.len() < self.progress.count {
            draft.vet()?;
            return Err(RunFault::ShortBuffer);
        }
        write_field(&draft, out)
    }
}
