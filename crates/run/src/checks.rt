// What every call looks for before all else.
ghost use Rattle.std.specs.Prelude.{◌≡◌};
ghost use Rattle.history.specs.Calls.{can_open, may_close, may_open};
ghost use Rattle.history.specs.Checks.{checked, checked_first, short_case};
ghost use Rattle.run.specs.Standing.{field_given, field_told, stands};

use crate::lending::{Lent, front};
use crate::states::Progress;
use field::{Rules, Settings, Stage};
use flood::{next_copy, open_base};
use numbering::Numbering;
use refusal::RunFault;
use vetting::{InMemory, MemoryCase, Named};

// Is a buffer shorter than the field?
fn room<N: Numbering, D, A>(
    settings: Settings,
    count: usize,
    lent: &Lent<N, D, A>,
) -> Result<(), RunFault>
    ensures { result ≡ short_case (field_told N.Numbering.meaning settings count lent.now) lent.now.rows.now lent.now.senders.now }
{
    let n = usize::from(settings.n);
    if lent.rows.len() < n || lent.senders.len() < n || lent.links.len() < count {
        return Err(RunFault::ShortBuffer);
    }
    Ok(())
}

// What begin looks for; the told count may be any.
#[tactic(auto, unfolding(history::specs::Checks::checked_first))]
pub fn check_first<N: Numbering, D, A>(
    settings: Settings,
    count: usize,
    lent: &Lent<N, D, A>,
) -> Result<(), RunFault>
    ensures { result ≡ checked_first (field_told N.Numbering.meaning settings count lent.now) lent.now.rows.now lent.now.senders.now }
{
    let memory = InMemory {
        rules: Rules {
            numbering: lent.numbering,
            settings,
        },
        stage: Stage::Beginning,
        rows: &*lent.rows,
        senders: &[],
        links: front(lent.links, count),
        count,
        losses: &[],
        named: Named::Nothing,
    };
    memory.first_fault(&[
        MemoryCase::Sensors,
        MemoryCase::Links { repeats: true },
        MemoryCase::Count,
        MemoryCase::Rows,
    ])?;
    room(settings, count, lent)
}

impl Progress {
    pub fn rules<'n, N: Numbering, D, A>(
        &self,
        lent: &Lent<'n, '_, '_, '_, '_, '_, N, D, A>,
    ) -> Rules<'n, N>
        ensures numbering { result.numbering ≡ lent.now.numbering }
        ensures settings { result.settings ≡ self.now.settings }
    {
        Rules {
            numbering: lent.numbering,
            settings: self.settings,
        }
    }

    // The check of every call, at the stage at which the run stands.
    #[tactic(auto, unfolding(history::specs::Checks::checked))]
    pub fn check<N: Numbering, D, A>(
        &self,
        lent: &Lent<N, D, A>,
        named: Named<N::Number>,
        stage: Stage,
    ) -> Result<(), RunFault>
        ensures { result ≡ checked (field_given N.Numbering.meaning self.now lent.now) named stage lent.now.rows.now lent.now.senders.now }
    {
        let memory = InMemory {
            rules: self.rules(lent),
            stage,
            rows: &*lent.rows,
            senders: &*lent.senders,
            links: front(lent.links, self.count),
            count: self.count,
            losses: &[],
            named,
        };
        memory.first_fault(&[
            MemoryCase::Sensors,
            MemoryCase::Links { repeats: false },
            MemoryCase::Rows,
        ])?;
        room(self.settings, self.count, lent)
    }

    // Can the next instant open: is there one more, and does the base find a number if it is to send?
    pub fn can_open<N: Numbering, D, A>(&self, lent: &Lent<N, D, A>) -> Result<(), RunFault>
        ensures { result ≡ can_open (field_given N.Numbering.meaning self.now lent.now) (stands self.now None lent.now) }
    {
        if self.instant == u32::MAX {
            return Err(RunFault::LastInstant);
        }
        match lent.rows.get(0) {
            Some(base) if open_base(&self.rules(lent), *base).is_none() => Err(RunFault::NoNumber),
            _ => Ok(()),
        }
    }

    // What open looks for.
    pub fn may_open<N: Numbering, D, A>(&self, lent: &Lent<N, D, A>) -> Result<(), RunFault>
        ensures { result ≡ may_open (field_given N.Numbering.meaning self.now lent.now) (stands self.now None lent.now) }
    {
        self.check(lent, Named::Nothing, Stage::Between)?;
        self.can_open(lent)
    }

    // What close looks for, at a position in the links.
    pub fn may_close<N: Numbering, D, A>(
        &self,
        lent: &Lent<N, D, A>,
        position: usize,
    ) -> Result<(), RunFault>
        ensures { result ≡ may_close (field_given N.Numbering.meaning self.now lent.now) (stands self.now (Some position) lent.now) }
    {
        self.check(lent, Named::Nothing, Stage::Within)?;
        let rows = &*lent.rows;
        match next_copy(rows, front(lent.links, self.count), position) {
            Some(_) => Err(RunFault::CopyLeft),
            None => Ok(()),
        }
    }
}
