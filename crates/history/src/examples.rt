// The definitions of a run, worked by computation. These functions do nothing: what they ensure are the examples.
ghost use Rattle.history.specs.Bites.{SettlingBites};
ghost use Rattle.history.specs.CheckedExamples.{CheckedExamples};
ghost use Rattle.history.specs.Worked.{NotVacuous, Worked};
ghost use Rattle.history.specs.WorkedCalls.{WorkedCalls};

// The worked field, played; a longer play in which all that is asked before floods are said to settle is met; and worked calls.
#[tactic(auto, using(crate::proofs::Worked::worked, crate::proofs::Worked::not_vacuous, crate::proofs::WorkedCalls::worked_calls))]
pub fn worked_field()
    ensures worked { Worked }
    ensures not_vacuous { NotVacuous }
    ensures calls { WorkedCalls }
{}

// That floods settle is no empty promise: what it says of small runs, where sensors refuse copies until they have caught up, and that
// it would be false with one less for the catch-up count or one more for the patience.
#[tactic(auto, using(crate::proofs::Bites::settling_bites))]
pub fn settling_bites()
    ensures { SettlingBites }
{}

// What the rules come to in single cases.
#[tactic(auto, using(crate::proofs::CheckedExamples::checked_examples))]
pub fn checked_examples()
    ensures { CheckedExamples }
{}

#[cfg(test)]
mod tests {
    use field::{Message, Row};
    use flood::{Verdict, take_copy};
    use numbering::Differentiated;
    use std::test::Fail;

    #[test]
    fn a_mark_stays_when_a_copy_of_hop_2_is_accepted(rt: HostRuntime) -> Result<(), Fail> {
        let Some(differentiated) = Differentiated::new(2) else {
            return Err(Fail::new("smax 2 is lawful"));
        };
        let row = Row {
            timer: 1,
            held: 1,
            mark: Some(1),
            outgoing: None,
        };
        let message = Message { hop: 2, number: 2 };
        let taken = take_copy(&differentiated, true, message, row);
        assert!(rt; taken.verdict == Verdict::Accepted && taken.row.held == 2);
        assert_eq!(rt; taken.row.mark, Some(1));
        Ok(())
    }
}
