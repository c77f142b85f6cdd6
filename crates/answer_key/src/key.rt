// The key of a run, portion by portion.
ghost use Rattle.std.specs.Prelude.{◌≡◌, ◌+◌, ℕ, ◌-◌, ◌<◌, IfOk, List, [], length, min};
ghost use Rattle.answer_key.specs.declared.states.Ahead.TheVariants.{Acts};
ghost use Rattle.history.specs.Calls.{begun, damaging, finishing};
ghost use Rattle.history.specs.Plays.{playing};
ghost use Rattle.run.specs.Answers.{began, begun_as, or_back};
ghost use Rattle.run.specs.Standing.{SameLoans, between, field_given, field_told, given};
ghost use Rattle.loading.specs.Loads.{counted};
ghost use Rattle.answer_key.specs.Files.{first_act};
ghost use Rattle.answer_key.specs.Begins.{KeyOfFile};
ghost use Rattle.answer_key.specs.Portions.{FloodsOfKeySettle, KeyIsWhole, Portion, fault_of, index_of, key_field, key_standing, key_world, run_of, waiting};
ghost use Rattle.answer_key.specs.Steps.{Damaged, PlaysOn, PrintsLines, PrintsRefusal, act_on, instants_on};

use crate::lines::{KeyRefusal, LONGEST_LINE, print};
use crate::states::{Ahead, AnswerKey, Bookmark};
use air::{Air, DelayRule};
use field::{Act, Damage, Settings};
use filed::Filed;
use history::{Counts, Ending, TakenCopy};
use loading::FileUnder;
use numbering::{NumberKind, Numbering, Zero};
use refusal::RunFault;
use run::{Declined, Idle, Lent};

/// The most instants that a portion plays, so that lines come as they fall.
pub const PORTION: u32 = 65_536;

impl AnswerKey {
    /// Begins a key whose acts are still to come: a run of a field with these settings, of which the first `count` links are told, as
    /// `Idle::begin` begins it (`value`). The index is that of the record of the first act, counted from 0: a refusal tells it.
    ///
    /// From there on the whole key is left, whatever acts, log and page are lent (`whole`), and the floods of each key settle: those whose
    /// copies it has, once its acts are done (`settles`). It declines as `Idle::begin` does, and nothing that was lent is altered.
    pub fn begin<N: Numbering, D: DelayRule, A: Air>(
        settings: Settings,
        count: usize,
        index: usize,
        lent: &mut Lent<N, D, A>,
    ) -> Result<AnswerKey, RunFault>
        ensures value { begun_as lent.new (run_of result) ≡ began lent.old.rows.now lent.old.senders.now (begun (field_told N.Numbering.meaning settings count lent.old) lent.old.rows.now lent.old.senders.now) }
        ensures lent { SameLoans lent.old lent.new }
        ensures whole { IfOk result (λ key. KeyIsWhole N.Numbering.meaning D.DelayRule.period A.Air.carries lent.new index N.Number.NumberKind.worth key) }
        ensures settles { IfOk result (λ key. FloodsOfKeySettle N.Numbering.meaning D.DelayRule.period A.Air.carries lent.new index key) }
    {
        let run = Idle::begin(settings, count, lent)?;
        let mark = Bookmark {
            ahead: Ahead::Acts,
            act: 0,
            index,
            played: 0,
            first: 0,
            lines: 0,
        };
        Ok(AnswerKey { run, mark })
    }

    /// Begins the key of a field file, whose rows and links stand in front of what is lent: with the file's settings, with all its links
    /// told, and with the record behind those of rows, links and losses as the first act's. It is `begin` in all else.
    ///
    /// Where the parts of the file are lent as `Buffers::of_file` makes them, with the file's own numbering, it is granted, and what is left
    /// is the key of the file, which is one definition over its bytes (`key`, `file_key`).
    pub fn of_file<N: Filed, D: DelayRule, A: Air>(
        file: &FileUnder<N>,
        lent: &mut Lent<N, D, A>,
    ) -> Result<AnswerKey, RunFault>
        ensures value { begun_as lent.new (run_of result) ≡ began lent.old.rows.now lent.old.senders.now (begun (field_told N.Numbering.meaning file.now.settings (counted file.now.file.now).links lent.old) lent.old.rows.now lent.old.senders.now) }
        ensures lent { SameLoans lent.old lent.new }
        ensures whole { IfOk result (λ key. KeyIsWhole N.Numbering.meaning D.DelayRule.period A.Air.carries lent.new (first_act file.now.file.now) N.Number.NumberKind.worth key) }
        ensures settles { IfOk result (λ key. FloodsOfKeySettle N.Numbering.meaning D.DelayRule.period A.Air.carries lent.new (first_act file.now.file.now) key) }
        ensures key { KeyOfFile N.Numbering.meaning D.DelayRule.period A.Air.carries N.Number.NumberKind.of N.Number.NumberKind.worth file.now.numbering file.now.file.now file.now.settings lent.old lent.new result }
    {
        let counts = file.counts();
        let first_act = 1 + counts.rows + counts.links + counts.losses;
        AnswerKey::begin(file.rules().settings, counts.links, first_act, lent)
    }

    /// Goes on with the key, and answers how many bytes of it stand at the front of the page then, which may be none; or nothing is left
    /// of it, and nothing changes. It prints lines that wait, as many as the page surely has room for, or one if it fits. Where none
    /// waits, it does the next act, of a play at most `PORTION` instants, whose copies stand in the log until they are printed.
    ///
    /// The bytes and what is left are together what was left before, and each portion prints some of it or is a step towards the end of
    /// the acts: so the portions, one behind the other, are the key. Bytes behind them stay. Its definition is `Portion`.
    ///
    /// It declines with 15, and nothing is altered, where the page has no room for the next line, or the log none for the copies of the
    /// next instant. A log of 1,024 rows and a page of 43 bytes always have room.
    pub fn portion<N: Numbering, D: DelayRule, A: Air>(
        &mut self,
        lent: &mut Lent<N, D, A>,
        acts: &[Act<N::Number>],
        log: &mut [TakenCopy<N::Number>],
        page: &mut [u8],
    ) -> Result<Option<usize>, RunFault>
        ensures value { Portion N.Number.NumberKind.worth acts.now (key_standing N.Numbering.meaning D.DelayRule.period A.Air.carries self.old lent.old log.old page.old) (key_standing N.Numbering.meaning D.DelayRule.period A.Air.carries self.new lent.new log.new page.new) result }
        ensures lent { SameLoans lent.old lent.new }
    {
        if !self.mark.waiting(log).is_empty() {
            let size = self.mark.print_lines(log, page)?;
            return Ok(Some(size));
        }
        match self.mark.ahead {
            Ahead::Acts => self.next_act(lent, acts, log),
            Ahead::Refusal(fault) => {
                let size = self.mark.print_refusal(fault, page)?;
                Ok(Some(size))
            }
            Ahead::Refused(_) => Ok(None),
        }
    }

    /// The refusal at which the acts ended, once they have; its line may still wait to be printed.
    pub fn fault(&self) -> Option<RunFault>
        ensures { result ≡ fault_of self.now }
    {
        match self.mark.ahead {
            Ahead::Acts => None,
            Ahead::Refusal(fault) | Ahead::Refused(fault) => Some(fault),
        }
    }

    /// The index of the next act's record, or of the one at which the acts ended.
    pub fn index(&self) -> usize
        ensures { result ≡ index_of self.now }
    {
        self.mark.index
    }

    /// Ends the key, and answers what its run has counted, as `Idle::finish` does. Where it declines, the key is handed back.
    pub fn finish<N: Numbering, D, A>(
        self,
        lent: &Lent<N, D, A>,
    ) -> Result<Counts, Declined<AnswerKey>>
        ensures { result ≡ or_back self (finishing (key_field N.Numbering.meaning self lent.now) (key_world self lent.now)) }
    {
        let AnswerKey { run, mark } = self;
        match run.finish(lent) {
            Ok(counts) => Ok(counts),
            Err(Declined { run, fault }) => Err(Declined {
                run: AnswerKey { run, mark },
                fault,
            }),
        }
    }

    // The next act, or as much of it as a portion plays.
    fn next_act<N: Numbering, D: DelayRule, A: Air>(
        &mut self,
        lent: &mut Lent<N, D, A>,
        acts: &[Act<N::Number>],
        log: &mut [TakenCopy<N::Number>],
    ) -> Result<Option<usize>, RunFault>
        requires acts { self.old.mark.ahead ≡ Acts }
        requires none { waiting self.old.mark log.old ≡ [] }
        ensures value { (page : List ℕ) → Portion N.Number.NumberKind.worth acts.now (key_standing N.Numbering.meaning D.DelayRule.period A.Air.carries self.old lent.old log.old page) (key_standing N.Numbering.meaning D.DelayRule.period A.Air.carries self.new lent.new log.new page) result }
        ensures lent { SameLoans lent.old lent.new }
    {
        match acts.get(self.mark.act) {
            Some(Act::Play(budget)) => self.play_on(lent, *budget, log)?,
            Some(Act::Damage(damage)) => self.damage(lent, *damage),
            None => return Ok(None),
        }
        Ok(Some(0))
    }

    // The damage that is the next act.
    fn damage<N: Numbering, D, A>(&mut self, lent: &mut Lent<N, D, A>, damage: Damage<N::Number>)
        requires { self.old.mark.act + 1 < 18446744073709551616 }
        ensures value { let world = between self.old.run lent.old in Damaged self.old.mark self.new.mark world (between self.new.run lent.new) (damaging (field_given N.Numbering.meaning self.old.run.progress lent.old) damage world) }
        ensures lent { SameLoans lent.old lent.new }
    {
        match self.run.damage(lent, damage) {
            Ok(()) => self.mark = self.mark.act_on(),
            Err(fault) => self.mark.ahead = Ahead::Refusal(fault),
        }
    }

    // So many of the next act's instants as a portion plays.
    fn play_on<N: Numbering, D: DelayRule, A: Air>(
        &mut self,
        lent: &mut Lent<N, D, A>,
        budget: u32,
        log: &mut [TakenCopy<N::Number>],
    ) -> Result<(), RunFault>
        requires { self.old.mark.act + 1 < 18446744073709551616 }
        ensures value { let world = between self.old.run lent.old in PlaysOn (playing (given N.Numbering.meaning D.DelayRule.period A.Air.carries self.old.run.progress lent.old) (min (budget - self.old.mark.played) 65536) (length log.old) world) budget self.old.mark self.new.mark world (between self.new.run lent.new) log.old log.new result }
        ensures lent { SameLoans lent.old lent.new }
    {
        let part = budget.saturating_sub(self.mark.played).min(PORTION);
        let played = self.run.play(lent, part, log);
        let mark = Bookmark {
            first: 0,
            lines: played.rows,
            ..self.mark
        };
        self.mark = match played.ending {
            Ending::LogShort if played.instants == 0 => return Err(RunFault::NoRoom),
            Ending::Refused(fault) => Bookmark {
                ahead: Ahead::Refusal(fault),
                ..mark
            },
            _ => mark.instants_on(played.instants, budget),
        };
        Ok(())
    }
}

impl Bookmark {
    // The copies in the log whose lines wait.
    fn waiting<K: Copy>(self, log: &[TakenCopy<K>]) -> &[TakenCopy<K>]
        ensures { result.now ≡ waiting self log.now }
    {
        let rows = &log[self.first.min(log.len())..];
        &rows[..self.lines.min(rows.len())]
    }

    fn act_on(self) -> Bookmark
        requires { self.act + 1 < 18446744073709551616 }
        ensures { result ≡ act_on self }
    {
        Bookmark {
            act: self.act + 1,
            index: self.index.saturating_add(1),
            played: 0,
            ..self
        }
    }

    fn instants_on(self, instants: u32, budget: u32) -> Bookmark
        requires act { self.act + 1 < 18446744073709551616 }
        ensures { result ≡ instants_on instants budget self }
    {
        match self.played.checked_add(instants) {
            Some(played) if played < budget => Bookmark { played, ..self },
            _ => self.act_on(),
        }
    }

    // The first lines of those that wait: as many as the page surely takes, or one if it fits.
    fn print_lines<K: NumberKind>(
        &mut self,
        log: &[TakenCopy<K>],
        page: &mut [u8],
    ) -> Result<usize, RunFault>
        requires { 0 < length (waiting self.old log.now) }
        ensures { PrintsLines K.NumberKind.worth self.old self.new log.now page.old page.new result }
    {
        let waiting = self.waiting(log);
        let count = (page.len() / LONGEST_LINE).max(1).min(waiting.len());
        let size = print(&waiting[..count], None, page)?;
        self.first += count;
        self.lines -= count;
        Ok(size)
    }

    fn print_refusal(&mut self, fault: RunFault, page: &mut [u8]) -> Result<usize, RunFault>
        ensures { PrintsRefusal fault self.old self.new page.old page.new result }
    {
        let refusal = KeyRefusal::of_run(fault, self.index);
        let none: &[TakenCopy<Zero>] = &[];
        let size = print(none, Some(refusal), page)?;
        self.ahead = Ahead::Refused(fault);
        Ok(size)
    }
}
