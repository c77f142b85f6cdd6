// The calls between two instants that change one row, or nothing.
ghost use Rattle.std.specs.Prelude.{◌≡◌};
ghost use Rattle.history.specs.Calls.{damaging, finishing, looking};
ghost use Rattle.run.specs.Answers.{answered, moved, or_back};
ghost use Rattle.run.specs.Standing.{SameLoans, between, counts_of, field_given};

use crate::lending::{Lent, put};
use crate::states::{Declined, Idle, Progress};
use field::{Damage, Row, Stage};
use history::Counts;
use numbering::Numbering;
use refusal::RunFault;
use vetting::Named;

impl Idle {
    /// Overwrites timer, mark and held number of one sensor. Its definition is `damaging`.
    ///
    /// It declines as every call does (6, 7, 9, then 11); the sensor that it names belongs to 6, and what it would write to 9, where the
    /// lower place is told.
    #[tactic(auto, unfolding(history::specs::Calls::world_damaged))]
    pub fn damage<N: Numbering, D, A>(
        &mut self,
        lent: &mut Lent<N, D, A>,
        damage: Damage<N::Number>,
    ) -> Result<(), RunFault>
        ensures value { let world = between self.old lent.old in answered result (between self.new lent.new) ≡ moved world (damaging (field_given N.Numbering.meaning self.old.progress lent.old) damage world) }
        ensures lent { SameLoans lent.old lent.new }
    {
        self.progress
            .check(lent, Named::Damaged(damage), Stage::Between)?;
        let row = Row {
            timer: damage.timer,
            held: damage.held,
            mark: damage.mark,
            outgoing: None,
        };
        put(&mut *lent.rows, usize::from(damage.sensor), row);
        Ok(())
    }

    /// The row of one sensor; nothing changes. Its definition is `looking`.
    ///
    /// It declines as every call does (6, 7, 9, then 11); the sensor that it names belongs to 6, where the lower place is told.
    pub fn look<N: Numbering, D, A>(
        &self,
        lent: &Lent<N, D, A>,
        sensor: u8,
    ) -> Result<Row<N::Number>, RunFault>
        ensures { result ≡ looking (field_given N.Numbering.meaning self.now.progress lent.now) sensor (between self.now lent.now) }
    {
        self.progress
            .check(lent, Named::Sensor(sensor), Stage::Between)?;
        match lent.rows.get(usize::from(sensor)) {
            Some(row) => Ok(*row),
            None => Err(RunFault::ShortBuffer),
        }
    }

    /// Ends the run, and answers the numbers of instants, floods, copies and verdicts since it began. Its definition is `finishing`.
    ///
    /// It declines as every call does (6, 7, 9, then 11), and the run is handed back.
    pub fn finish<N: Numbering, D, A>(self, lent: &Lent<N, D, A>) -> Result<Counts, Declined<Idle>>
        ensures { result ≡ or_back self (finishing (field_given N.Numbering.meaning self.progress lent.now) (between self lent.now)) }
    {
        match self.progress.check(lent, Named::Nothing, Stage::Between) {
            Ok(()) => Ok(self.progress.counts()),
            Err(fault) => Err(Declined { run: self, fault }),
        }
    }
}

impl Progress {
    fn counts(self) -> Counts
        ensures { result ≡ counts_of self }
    {
        Counts {
            instants: u64::from(self.instant),
            floods: u64::from(self.floods),
            copies: self.copies,
            lost: self.lost,
            refused: self.refused,
            accepted: self.accepted,
        }
    }
}
