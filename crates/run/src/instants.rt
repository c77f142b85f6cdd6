// An instant, call by call.
ghost use Rattle.std.specs.Prelude.{◌≡◌, ◌+◌, ◌*◌, ◌≤◌, ◌<◌, false, is_some, length, IfSome, None, Some};
ghost use Rattle.flood.specs.Copies.{next_copy, outgoing_of};
ghost use Rattle.flood.specs.Instants.{any_sends};
ghost use Rattle.history.specs.Calls.{carrying, closing, comes_through, copy_over, counted_copy, next_taken, opening, world_closed, world_opened};
ghost use Rattle.history.specs.Limits.{LinksKeep};
ghost use Rattle.history.specs.Plays.{copies_in};
ghost use Rattle.history.specs.Worlds.{told_links};
ghost use Rattle.run.specs.Plays.{CarriedAll, all_copies};
ghost use Rattle.run.specs.Answers.{answered, closed_as, moved, onward, opened_as, taken_on};
ghost use Rattle.run.specs.Standing.{SameLoans, between, counts_of, field_given, given, stands, within};

use crate::lending::{Lent, front, put};
use crate::silent::open_silent_rows;
use crate::states::{Declined, Idle, Instant, Progress};
use air::{Air, DelayRule};
use field::{Link, Row, Stage};
use flood::{Verdict, close_rows, next_copy, open_rows, send_bytes, silence, take_copy};
use history::TakenCopy;
use numbering::Numbering;
use refusal::RunFault;
use vetting::Named;

// Does sensor 0 have something to send?
fn base_sends<Number: Copy>(rows: &[Row<Number>]) -> bool
    ensures { result ≡ is_some (outgoing_of rows.now 0) }
{
    match rows.get(0) {
        Some(base) => base.outgoing.is_some(),
        None => false,
    }
}

impl Idle {
    /// Opens the next instant, at the first link: timers run, and who is due sends. Its definition is `opening`.
    ///
    /// It declines as every call does (6, 7, 9, then 11), then with 12 after instant 4,294,967,295, then with 13 where sensor 0 must send
    /// and no number follows; the run is handed back.
    pub fn open<N: Numbering, D: DelayRule, A: Air>(
        self,
        lent: &mut Lent<N, D, A>,
    ) -> Result<Instant, Declined<Idle>>
        ensures value { let world = between self lent.old in opened_as lent.new result ≡ moved world (opening (given N.Numbering.meaning D.DelayRule.period A.Air.carries self.progress lent.old) world) }
        ensures lent { SameLoans lent.old lent.new }
    {
        match self.progress.may_open(lent) {
            Ok(()) => Ok(self.opened(lent)),
            Err(fault) => Err(Declined { run: self, fault }),
        }
    }

    #[tactic(auto, unfolding(history::specs::Calls::world_opened))]
    fn opened<N: Numbering, D: DelayRule, A: Air>(self, lent: &mut Lent<N, D, A>) -> Instant
        requires { self.progress.instant < 4294967295 }
        ensures value { within result lent.new ≡ world_opened (given N.Numbering.meaning D.DelayRule.period A.Air.carries self.progress lent.old) (between self lent.old) }
        ensures lent { SameLoans lent.old lent.new }
    {
        let Idle { mut progress } = self;
        progress.open_rows(lent);
        let rows = &mut *lent.rows;
        send_bytes(progress.settings.n, rows, &mut *lent.senders);
        Instant {
            progress,
            position: 0,
        }
    }
}

impl Progress {
    // The next instant, its rows open and no byte written yet. Tells whether a sensor sends.
    #[tactic(auto, unfolding(history::specs::Calls::world_opened))]
    pub fn open_rows<N: Numbering, D: DelayRule, A: Air>(
        &mut self,
        lent: &mut Lent<N, D, A>,
    ) -> bool
        requires { self.old.instant < 4294967295 }
        ensures value { let world = stands self.old None lent.old in stands self.new (Some 0) lent.new ≡ record (world_opened (given N.Numbering.meaning D.DelayRule.period A.Air.carries self.old lent.old) world) { senders = lent.old.senders.now } }
        ensures sends { result ≡ any_sends self.old.settings.n lent.new.rows.now }
        ensures copies { self.new.copies ≡ self.old.copies }
        ensures settings { self.new.settings ≡ self.old.settings }
        ensures links { self.new.count ≡ self.old.count }
        ensures instant { self.new.instant ≡ self.old.instant + 1 }
        ensures lent { SameLoans lent.old lent.new }
    {
        self.instant += 1;
        let rules = self.rules(lent);
        let rows = &mut *lent.rows;
        let sends = open_rows(&rules, lent.delay, self.instant, rows);
        if base_sends(rows) {
            self.floods += 1;
        }
        sends
    }
}

impl Progress {
    // The same where no row has something to send yet.
    #[tactic(auto, unfolding(history::specs::Calls::world_opened))]
    pub fn open_silent_rows<N: Numbering, D: DelayRule, A: Air>(
        &mut self,
        lent: &mut Lent<N, D, A>,
    ) -> bool
        requires instant { self.old.instant < 4294967295 }
        requires silent { any_sends self.old.settings.n lent.old.rows.now ≡ false }
        ensures value { let world = stands self.old None lent.old in stands self.new (Some 0) lent.new ≡ record (world_opened (given N.Numbering.meaning D.DelayRule.period A.Air.carries self.old lent.old) world) { senders = lent.old.senders.now } }
        ensures sends { result ≡ any_sends self.old.settings.n lent.new.rows.now }
        ensures copies { self.new.copies ≡ self.old.copies }
        ensures settings { self.new.settings ≡ self.old.settings }
        ensures links { self.new.count ≡ self.old.count }
        ensures instant { self.new.instant ≡ self.old.instant + 1 }
        ensures lent { SameLoans lent.old lent.new }
    {
        self.instant += 1;
        let rules = self.rules(lent);
        let rows = &mut *lent.rows;
        let sends = open_silent_rows(&rules, lent.delay, self.instant, rows);
        if base_sends(rows) {
            self.floods += 1;
        }
        sends
    }
}

impl Progress {
    // One copy more, and one more of its verdict, where one that forwards counts as accepted.
    fn counted(self, verdict: Verdict) -> Progress
        requires { self.copies + 1 < 18446744073709551616 }
        ensures counts { counts_of result ≡ counted_copy verdict (counts_of self) }
        ensures settings { result.settings ≡ self.settings }
        ensures links { result.count ≡ self.count }
        ensures instant { result.instant ≡ self.instant }
    {
        let mut progress = self;
        progress.copies += 1;
        match verdict {
            Verdict::Lost => progress.lost += 1,
            Verdict::Refused => progress.refused += 1,
            Verdict::Accepted | Verdict::Forwards => progress.accepted += 1,
        }
        progress
    }

    // Does the air carry a copy over this link?
    fn comes_through<N: Numbering, D: DelayRule, A: Air>(
        &self,
        lent: &Lent<N, D, A>,
        link: Link,
    ) -> bool
        ensures { result ≡ comes_through (given N.Numbering.meaning D.DelayRule.period A.Air.carries self.now lent.now) (stands self.now None lent.now) link }
    {
        let links = front(lent.links, self.count);
        let senders = front(&*lent.senders, usize::from(self.settings.n));
        lent.air.carries(self.instant, link, links, senders)
    }

    // The copy that goes over the link at a place, if one goes.
    #[tactic(auto, unfolding(history::specs::Calls::copy_taken))]
    pub fn carry_over<N: Numbering, D: DelayRule, A: Air>(
        &mut self,
        lent: &mut Lent<N, D, A>,
        place: usize,
    ) -> Option<TakenCopy<N::Number>>
        requires { self.old.copies + 1 < 18446744073709551616 }
        ensures value { let world = stands self.old (Some place) lent.old in answered (Ok result) (stands self.new (Some (onward place result)) lent.new) ≡ taken_on world (Ok (copy_over (given N.Numbering.meaning D.DelayRule.period A.Air.carries self.old lent.old) world place)) }
        ensures copies { self.new.copies ≤ self.old.copies + 1 }
        ensures links { self.new.count ≡ self.old.count }
        ensures instant { self.new.instant ≡ self.old.instant }
        ensures settings { self.new.settings ≡ self.old.settings }
        ensures lent { SameLoans lent.old lent.new }
    {
        let link = *front(lent.links, self.count).get(place)?;
        let Some(message) = lent.message_over(link) else {
            return None;
        };
        let carried = self.comes_through(lent, link);
        let numbering = lent.numbering;
        let rows = &mut *lent.rows;
        let row = *rows.get(usize::from(link.to))?;
        let taken = take_copy(numbering, carried, message, row);
        put(rows, usize::from(link.to), taken.row);
        *self = self.counted(taken.verdict);
        Some(TakenCopy {
            instant: self.instant,
            from: link.from,
            to: link.to,
            hop: message.hop,
            number: message.number,
            verdict: taken.verdict,
        })
    }
}

impl Progress {
    // All copies of an open instant, in the order of the links. They stand in the log behind the rows that are used; answered is
    // how many rows are used then.
    pub fn carry_all<N: Numbering, D: DelayRule, A: Air>(
        &mut self,
        lent: &mut Lent<N, D, A>,
        log: &mut [TakenCopy<N::Number>],
        used: usize,
    ) -> usize
        requires copies { self.old.copies + 1024 < 18446744073709551616 }
        requires links { LinksKeep (field_given N.Numbering.meaning self.old lent.old) }
        requires there { self.old.settings.n ≤ length lent.old.rows.now }
        requires room { used + length (copies_in (all_copies (given N.Numbering.meaning D.DelayRule.period A.Air.carries self.old lent.old) (stands self.old (Some 0) lent.old)).events) ≤ length log.old }
        ensures value { CarriedAll (given N.Numbering.meaning D.DelayRule.period A.Air.carries self.old lent.old) used (stands self.old (Some 0) lent.old) (stands self.new (Some 0) lent.new) log.old log.new result }
        ensures holds { given N.Numbering.meaning D.DelayRule.period A.Air.carries self.new lent.new ≡ given N.Numbering.meaning D.DelayRule.period A.Air.carries self.old lent.old }
        ensures copies { self.new.copies ≤ self.old.copies + self.old.count }
        ensures instant { self.new.instant ≡ self.old.instant }
        ensures lent { SameLoans lent.old lent.new }
    {
        let mut rows = used;
        for place in 0..self.count {
            if let Some(copy) = self.carry_over(lent, place) {
                put(log, rows, copy);
                rows += 1;
            }
        }
        rows
    }
}

impl Instant {
    /// Takes the next copy, in the order of the links, and answers it with its verdict; or no copy is left, and nothing changes. Its
    /// definition is `carrying`.
    ///
    /// It declines as every call does (6, 7, 9, then 11).
    pub fn carry<N: Numbering, D: DelayRule, A: Air>(
        &mut self,
        lent: &mut Lent<N, D, A>,
    ) -> Result<Option<TakenCopy<N::Number>>, RunFault>
        ensures value { let world = within self.old lent.old in answered result (within self.new lent.new) ≡ taken_on world (carrying (given N.Numbering.meaning D.DelayRule.period A.Air.carries self.old.progress lent.old) world) }
        ensures lent { SameLoans lent.old lent.new }
    {
        self.progress.check(lent, Named::Nothing, Stage::Within)?;
        Ok(self.take_next(lent))
    }

    // The place of the link over which the next copy goes.
    fn next_place<N: Numbering, D, A>(&self, lent: &Lent<N, D, A>) -> Option<usize>
        ensures value { result ≡ next_copy lent.now.rows.now (told_links (field_given N.Numbering.meaning self.now.progress lent.now)) self.now.position }
        ensures onward { IfSome result (λ place. (self.now.position ≤ place) × (place < self.now.progress.count)) }
    {
        let rows = &*lent.rows;
        next_copy(rows, front(lent.links, self.progress.count), self.position)
    }

    #[tactic(auto, unfolding(history::specs::Calls::next_taken))]
    fn take_next<N: Numbering, D: DelayRule, A: Air>(
        &mut self,
        lent: &mut Lent<N, D, A>,
    ) -> Option<TakenCopy<N::Number>>
        ensures value { let world = within self.old lent.old in answered (Ok result) (within self.new lent.new) ≡ taken_on world (Ok (next_taken (given N.Numbering.meaning D.DelayRule.period A.Air.carries self.old.progress lent.old) world)) }
        ensures lent { SameLoans lent.old lent.new }
    {
        let place = self.next_place(lent)?;
        let copy = self.progress.carry_over(lent, place)?;
        self.position = place + 1;
        Some(copy)
    }

    /// Ends the instant: no message is outgoing, and no sensor sends. Its definition is `closing`.
    ///
    /// It declines as every call does (6, 7, 9, then 11), then with 14 while a copy is left; the run is handed back.
    pub fn close<N: Numbering, D, A>(
        self,
        lent: &mut Lent<N, D, A>,
    ) -> Result<Idle, Declined<Instant>>
        ensures value { let world = within self lent.old in closed_as lent.new result ≡ moved world (closing (field_given N.Numbering.meaning self.progress lent.old) world) }
        ensures lent { SameLoans lent.old lent.new }
    {
        match self.progress.may_close(lent, self.position) {
            Ok(()) => Ok(self.closed(lent)),
            Err(fault) => Err(Declined { run: self, fault }),
        }
    }

    #[tactic(auto, unfolding(history::specs::Calls::world_closed))]
    fn closed<N: Numbering, D, A>(self, lent: &mut Lent<N, D, A>) -> Idle
        ensures value { between result lent.new ≡ world_closed (field_given N.Numbering.meaning self.progress lent.old) (within self lent.old) }
        ensures lent { SameLoans lent.old lent.new }
    {
        let n = self.progress.settings.n;
        close_rows(n, &mut *lent.rows);
        silence(n, &mut *lent.senders);
        Idle {
            progress: self.progress,
        }
    }
}
