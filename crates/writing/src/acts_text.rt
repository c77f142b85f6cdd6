// Acts as the bytes of a file.
ghost use Rattle.std.specs.Prelude.{◌≡◌, take, IfOk};
ghost use Rattle.loading.specs.Same.{LoadBehind};
ghost use Rattle.vetting.specs.Acts.{acts_vetted};
ghost use Rattle.recording.specs.Bytes.{act_bytes};
ghost use Rattle.writing.specs.Answers.{write_answer, write_page};

use field::{Act, Rules};
use numbering::Numbering;
use page::write;
use recording::Records;
use refusal::RunFault;
use vetting::vet_acts;

// Writes acts: the part of a file after its field. Answers how many bytes it has.
#[tactic(auto, unfolding(recording::specs::Bytes::act_bytes))]
pub fn write_acts<N: Numbering>(
    rules: &Rules<N>,
    acts: &[Act<N::Number>],
    out: &mut [u8],
) -> Result<usize, RunFault>
    ensures value { result ≡ write_answer (acts_vetted (N.Numbering.meaning rules.now.numbering.now) rules.now.settings acts.now) (act_bytes N.Number.NumberKind.worth acts.now) out.old }
    ensures out { out.new ≡ write_page (acts_vetted (N.Numbering.meaning rules.now.numbering.now) rules.now.settings acts.now) (act_bytes N.Number.NumberKind.worth acts.now) out.old }
    ensures same { IfOk result (λ size. LoadBehind (N.Numbering.meaning rules.now.numbering.now) N.Number.NumberKind.of N.Number.NumberKind.worth rules.now.settings acts.now (take size out.new)) }
{
    vet_acts(rules, acts)?;
    write(&Records(acts), out).ok_or(RunFault::NoRoom)
}
