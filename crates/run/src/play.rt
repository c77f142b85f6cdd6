// Play: many instants, with one check at the beginning.
ghost use Rattle.std.specs.Prelude.{◌≡◌, ◌+◌, ◌≤◌, ◌<◌, nat_lt, is_some, length, None, Ok};
ghost use Rattle.field.specs.declared.Stage.TheVariants.{Between};
ghost use Rattle.flood.specs.Copies.{outgoing_of};
ghost use Rattle.history.specs.Calls.{can_open, rows_opened};
ghost use Rattle.history.specs.Checks.{checked};
ghost use Rattle.history.specs.Limits.{LinksKeep};
ghost use Rattle.history.specs.Plays.{copies_in, copies_to_come, instant_gone, playing};
ghost use Rattle.run.specs.Plays.{ClosedAll, InstantPlayed, Tries, all_copies, played_as, played_out};
ghost use Rattle.run.specs.Standing.{SameLoans, between, field_given, given, stands, with_bytes};
ghost use Rattle.vetting.specs.declared.Named.TheVariants.{Nothing};

use crate::lending::{Lent, front};
use crate::states::{Idle, Progress};
use air::{Air, DelayRule};
use field::Stage;
use flood::{close_rows, open_row, silence};
use history::{Ending, TakenCopy};
use numbering::Numbering;
use vetting::Named;

/// What play answers.
#[derive(Clone, Copy, PartialEq, Eq, Debug)]
pub struct Played {
    /// The instants that it played, up to its budget.
    pub instants: u32,
    /// The rows that it wrote in the log.
    pub rows: usize,
    pub ending: Ending,
}

impl Idle {
    /// Plays a budget of instants, each of them open, every copy, and close. The copies stand in the front of the log, one a row, and
    /// what is behind them stays. Its definition is `playing`.
    ///
    /// It ends with the budget spent; or before an instant that has more copies than the log has free rows; or before one that open would
    /// decline, with that refusal. What was played stands. At a budget of 0 nothing is looked at.
    pub fn play<N: Numbering, D: DelayRule, A: Air>(
        &mut self,
        lent: &mut Lent<N, D, A>,
        budget: u32,
        log: &mut [TakenCopy<N::Number>],
    ) -> Played
        ensures value { played_as result (between self.new lent.new) log.new ≡ played_out log.old (playing (given N.Numbering.meaning D.DelayRule.period A.Air.carries self.old.progress lent.old) budget (length log.old) (between self.old lent.old)) }
        ensures lent { SameLoans lent.old lent.new }
    {
        if budget == 0 {
            return Played {
                instants: 0,
                rows: 0,
                ending: Ending::BudgetSpent,
            };
        }
        if let Err(fault) = self.progress.check(lent, Named::Nothing, Stage::Between) {
            return Played {
                instants: 0,
                rows: 0,
                ending: Ending::Refused(fault),
            };
        }
        self.play_checked(lent, budget, log)
    }

    fn play_checked<N: Numbering, D: DelayRule, A: Air>(
        &mut self,
        lent: &mut Lent<N, D, A>,
        budget: u32,
        log: &mut [TakenCopy<N::Number>],
    ) -> Played
        requires { checked (field_given N.Numbering.meaning self.old.progress lent.old) Nothing Between lent.old.rows.now lent.old.senders.now ≡ Ok tt }
        ensures value { played_as result (between self.new lent.new) log.new ≡ played_out log.old (playing (given N.Numbering.meaning D.DelayRule.period A.Air.carries self.old.progress lent.old) budget (length log.old) (between self.old lent.old)) }
        ensures lent { SameLoans lent.old lent.new }
    {
        let mut rows = 0;
        for instants in 0..budget {
            match self.try_instant(lent, log, rows) {
                Ok(after) => rows = after,
                Err(ending) => {
                    return Played {
                        instants,
                        rows,
                        ending,
                    };
                }
            }
        }
        Played {
            instants: budget,
            rows,
            ending: Ending::BudgetSpent,
        }
    }

    // One instant, where it can open and its copies find room in the log, of which so many rows are used.
    fn try_instant<N: Numbering, D: DelayRule, A: Air>(
        &mut self,
        lent: &mut Lent<N, D, A>,
        log: &mut [TakenCopy<N::Number>],
        used: usize,
    ) -> Result<usize, Ending>
        requires checked { checked (field_given N.Numbering.meaning self.old.progress lent.old) Nothing Between lent.old.rows.now lent.old.senders.now ≡ Ok tt }
        requires used { used ≤ length log.old }
        ensures value { Tries (given N.Numbering.meaning D.DelayRule.period A.Air.carries self.old.progress lent.old) used (between self.old lent.old) (between self.new lent.new) log.old log.new result }
        ensures lent { SameLoans lent.old lent.new }
        ensures holds { given N.Numbering.meaning D.DelayRule.period A.Air.carries self.new.progress lent.new ≡ given N.Numbering.meaning D.DelayRule.period A.Air.carries self.old.progress lent.old }
    {
        if let Err(fault) = self.progress.can_open(lent) {
            return Err(Ending::Refused(fault));
        }
        if self.progress.overfills(lent, log.len() - used) {
            return Err(Ending::LogShort);
        }
        Ok(self.play_instant(lent, log, used))
    }

    // One whole instant: open, every copy, and close.
    fn play_instant<N: Numbering, D: DelayRule, A: Air>(
        &mut self,
        lent: &mut Lent<N, D, A>,
        log: &mut [TakenCopy<N::Number>],
        used: usize,
    ) -> usize
        requires checked { checked (field_given N.Numbering.meaning self.old.progress lent.old) Nothing Between lent.old.rows.now lent.old.senders.now ≡ Ok tt }
        requires opens { can_open (field_given N.Numbering.meaning self.old.progress lent.old) (between self.old lent.old) ≡ Ok tt }
        requires room { used + length (copies_in (instant_gone (given N.Numbering.meaning D.DelayRule.period A.Air.carries self.old.progress lent.old) (between self.old lent.old)).events) ≤ length log.old }
        ensures value { InstantPlayed (given N.Numbering.meaning D.DelayRule.period A.Air.carries self.old.progress lent.old) used (between self.old lent.old) (between self.new lent.new) log.old log.new result }
        ensures holds { given N.Numbering.meaning D.DelayRule.period A.Air.carries self.new.progress lent.new ≡ given N.Numbering.meaning D.DelayRule.period A.Air.carries self.old.progress lent.old }
        ensures lent { SameLoans lent.old lent.new }
    {
        let mut progress = self.progress;
        let rows = progress.pass_instant(lent, log, used);
        self.progress = progress;
        rows
    }
}

impl Progress {
    // Will a sensor have something to send once the next instant is open?
    fn sends_next<N: Numbering, D: DelayRule, A: Air>(
        &self,
        lent: &Lent<N, D, A>,
        sensor: u8,
    ) -> bool
        requires { self.now.instant < 4294967295 }
        ensures { result ≡ is_some (outgoing_of (rows_opened (given N.Numbering.meaning D.DelayRule.period A.Air.carries self.now lent.now) (stands self.now None lent.now)) sensor) }
    {
        match lent.rows.get(usize::from(sensor)) {
            Some(row) if sensor < self.settings.n => {
                let mut row = *row;
                open_row(
                    &self.rules(lent),
                    lent.delay,
                    self.instant + 1,
                    sensor,
                    &mut row,
                )
            }
            Some(row) => row.outgoing.is_some(),
            None => false,
        }
    }

    // How many copies the next instant has, if it opens.
    fn copies_to_come<N: Numbering, D: DelayRule, A: Air>(&self, lent: &Lent<N, D, A>) -> usize
        requires { self.now.instant < 4294967295 }
        ensures { result ≡ copies_to_come (given N.Numbering.meaning D.DelayRule.period A.Air.carries self.now lent.now) (stands self.now None lent.now) }
    {
        let links = front(lent.links, self.count);
        let mut copies = 0;
        for place in 0..links.len() {
            if self.sends_next(lent, links[place].from) {
                copies += 1;
            }
        }
        copies
    }

    // Has the next instant more copies than there is room? There is at most one for each link, so they are seldom counted.
    fn overfills<N: Numbering, D: DelayRule, A: Air>(
        &self,
        lent: &Lent<N, D, A>,
        room: usize,
    ) -> bool
        requires { self.now.instant < 4294967295 }
        ensures { result ≡ nat_lt room (copies_to_come (given N.Numbering.meaning D.DelayRule.period A.Air.carries self.now lent.now) (stands self.now None lent.now)) }
    {
        room < front(lent.links, self.count).len() && room < self.copies_to_come(lent)
    }

    // From open rows to the close: the sender bytes, all copies, and the end of the instant.
    fn pass_copies<N: Numbering, D: DelayRule, A: Air>(
        &mut self,
        lent: &mut Lent<N, D, A>,
        log: &mut [TakenCopy<N::Number>],
        used: usize,
    ) -> usize
        requires copies { self.old.copies + 1024 < 18446744073709551616 }
        requires links { LinksKeep (field_given N.Numbering.meaning self.old lent.old) }
        requires there { self.old.settings.n ≤ length lent.old.rows.now }
        requires room { used + length (copies_in (all_copies (given N.Numbering.meaning D.DelayRule.period A.Air.carries self.old lent.old) (with_bytes self.old lent.old)).events) ≤ length log.old }
        ensures value { ClosedAll (given N.Numbering.meaning D.DelayRule.period A.Air.carries self.old lent.old) used (with_bytes self.old lent.old) (stands self.new None lent.new) log.old log.new result }
        ensures holds { given N.Numbering.meaning D.DelayRule.period A.Air.carries self.new lent.new ≡ given N.Numbering.meaning D.DelayRule.period A.Air.carries self.old lent.old }
        ensures copies { self.new.copies ≤ self.old.copies + self.old.count }
        ensures instant { self.new.instant ≡ self.old.instant }
        ensures lent { SameLoans lent.old lent.new }
    {
        let n = self.settings.n;
        lent.send_bytes(n);
        let rows = self.carry_all(lent, log, used);
        close_rows(n, &mut *lent.rows);
        silence(n, &mut *lent.senders);
        rows
    }

    // A whole instant. Where no sensor sends, nothing more is gone over once it is open.
    fn pass_instant<N: Numbering, D: DelayRule, A: Air>(
        &mut self,
        lent: &mut Lent<N, D, A>,
        log: &mut [TakenCopy<N::Number>],
        used: usize,
    ) -> usize
        requires copies { self.old.copies + 1024 < 18446744073709551616 }
        requires checked { checked (field_given N.Numbering.meaning self.old lent.old) Nothing Between lent.old.rows.now lent.old.senders.now ≡ Ok tt }
        requires opens { can_open (field_given N.Numbering.meaning self.old lent.old) (stands self.old None lent.old) ≡ Ok tt }
        requires room { used + length (copies_in (instant_gone (given N.Numbering.meaning D.DelayRule.period A.Air.carries self.old lent.old) (stands self.old None lent.old)).events) ≤ length log.old }
        ensures value { InstantPlayed (given N.Numbering.meaning D.DelayRule.period A.Air.carries self.old lent.old) used (stands self.old None lent.old) (stands self.new None lent.new) log.old log.new result }
        ensures holds { given N.Numbering.meaning D.DelayRule.period A.Air.carries self.new lent.new ≡ given N.Numbering.meaning D.DelayRule.period A.Air.carries self.old lent.old }
        ensures copies { self.new.copies ≤ self.old.copies + 1024 }
        ensures instant { self.new.instant ≡ self.old.instant + 1 }
        ensures lent { SameLoans lent.old lent.new }
    {
        if !self.open_silent_rows(lent) {
            return used;
        }
        self.pass_copies(lent, log, used)
    }
}
