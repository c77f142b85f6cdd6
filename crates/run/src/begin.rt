// How a run begins, and what is true of it from there on.
ghost use Rattle.std.specs.Prelude.{◌≡◌, IfOk};
ghost use Rattle.history.specs.Calls.{begun};
ghost use Rattle.history.specs.Settled.{FloodsSettle, SettleWithin};
ghost use Rattle.run.specs.Laws.{RunLaws};
ghost use Rattle.run.specs.Answers.{began, begun_as};
ghost use Rattle.run.specs.Standing.{SameLoans, between, field_told};

use crate::checks::check_first;
use crate::lending::Lent;
use crate::states::{Idle, Progress};
use field::Settings;
use flood::{close_rows, silence};
use numbering::{Numbering, Settling};
use refusal::RunFault;

impl Idle {
    /// Begins a run of a field with these settings, of which the first `count` links are told: every outgoing message becomes absent
    /// and every sender byte 0, and the run stands before instant 1. From there on floods settle, whatever calls follow, with whatever
    /// delay rule and air (`settles`), and the other laws of runs hold (`laws`).
    ///
    /// It declines with 6, 7 (repeated links too) at the lowest such link, 8 at place 1,024 where more links are told, 9 at the lowest
    /// such sensor (no outgoing message and no byte is looked at), then 11 where rows or bytes are fewer than n, or links than told.
    /// Its definition is `begun`.
    #[tactic(auto, using(crate::proofs::Began::few_told))]
    pub fn begin<N: Numbering, D, A>(
        settings: Settings,
        count: usize,
        lent: &mut Lent<N, D, A>,
    ) -> Result<Idle, RunFault>
        ensures value { begun_as lent.new result ≡ began lent.old.rows.now lent.old.senders.now (begun (field_told N.Numbering.meaning settings count lent.old) lent.old.rows.now lent.old.senders.now) }
        ensures lent { SameLoans lent.old lent.new }
        ensures settles { IfOk result (λ run. FloodsSettle (field_told N.Numbering.meaning settings count lent.old) (between run lent.new)) }
        ensures laws { IfOk result (λ run. RunLaws (field_told N.Numbering.meaning settings count lent.old) (between run lent.new)) }
    {
        check_first(settings, count, lent)?;
        close_rows(settings.n, &mut *lent.rows);
        silence(settings.n, &mut *lent.senders);
        Ok(Idle {
            progress: Progress {
                settings,
                count,
                instant: 0,
                floods: 0,
                copies: 0,
                lost: 0,
                refused: 0,
                accepted: 0,
            },
        })
    }

    /// Begins a run under a settling numbering, as `begin` does: floods then settle within the numbering's own patience and catch-up
    /// count (`within`).
    pub fn begin_settling<N: Settling, D, A>(
        settings: Settings,
        count: usize,
        lent: &mut Lent<N, D, A>,
    ) -> Result<Idle, RunFault>
        ensures value { begun_as lent.new result ≡ began lent.old.rows.now lent.old.senders.now (begun (field_told N.Numbering.meaning settings count lent.old) lent.old.rows.now lent.old.senders.now) }
        ensures lent { SameLoans lent.old lent.new }
        ensures within { let numbering = lent.old.numbering.now in IfOk result (λ run. SettleWithin (N.Settling.patience numbering) (N.Settling.catchup numbering) (field_told N.Numbering.meaning settings count lent.old) (between run lent.new)) }
    {
        Idle::begin(settings, count, lent)
    }
}
