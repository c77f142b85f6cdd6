// What is looked for in acts before they are written.
ghost use Rattle.std.specs.Prelude.{◌≡◌, length};
ghost use Rattle.vetting.specs.Cases.{holds_at};
ghost use Rattle.vetting.specs.Acts.{act_test, act_fault, act_case, acts_vetted, damages_none, breaks_limits};

use crate::cases::ActCase;
use field::{Act, Rules};
use numbering::Numbering;
use refusal::{FieldFault, RunFault};
use search::{Case, pass};

fn damages_none<N: Numbering>(rules: &Rules<N>, acts: &[Act<N::Number>], place: usize) -> bool
    ensures { result ≡ holds_at (damages_none rules.now.settings) acts.now place }
{
    match acts.get(place) {
        Some(Act::Damage(damage)) => !(damage.sensor < rules.settings.n),
        Some(Act::Play(_)) | None => false,
    }
}

fn breaks_limits<N: Numbering>(rules: &Rules<N>, acts: &[Act<N::Number>], place: usize) -> bool
    ensures { result ≡ holds_at (breaks_limits (N.Numbering.meaning rules.now.numbering.now) rules.now.settings) acts.now place }
{
    match acts.get(place) {
        Some(Act::Damage(damage)) => !rules.damage_keeps(*damage),
        Some(Act::Play(_)) | None => false,
    }
}

// A case of acts, likewise.
#[derive(Drop)]
struct OfActs<'r, 'n, 'a, N: Numbering> {
    rules: &'r Rules<'n, N>,
    acts: &'a [Act<N::Number>],
    case: ActCase,
}

impl<'r, 'n, 'a, N: Numbering> Case for OfActs<'r, 'n, 'a, N> {
    type Fault = FieldFault;

    ghost count = { λ s. length s.acts.now };

    ghost at = { λ s. let r = s.rules.now in holds_at (act_test (N.Numbering.meaning r.numbering.now) r.settings s.case) s.acts.now };

    ghost told = { λ s. act_fault s.case };

    fn places(&self) -> usize {
        self.acts.len()
    }

    fn holds(&self, place: usize) -> bool {
        match self.case {
            ActCase::Sensors => damages_none(self.rules, self.acts, place),
            ActCase::Limits => breaks_limits(self.rules, self.acts, place),
        }
    }

    fn fault(&self, place: usize) -> FieldFault {
        match self.case {
            ActCase::Sensors => FieldFault::NoSensor(place),
            ActCase::Limits => FieldFault::BadRow(place),
        }
    }
}

#[tactic(auto, unfolding(crate::specs::Acts::act_case))]
fn pass_acts<N: Numbering>(
    rules: &Rules<N>,
    acts: &[Act<N::Number>],
    case: ActCase,
) -> Result<(), FieldFault>
    ensures { result ≡ act_case (N.Numbering.meaning rules.now.numbering.now) rules.now.settings acts.now case }
{
    pass(&OfActs { rules, acts, case })
}

// Whether acts are those of a field: nothing, or the first case that holds, at its lowest place.
pub fn vet_acts<N: Numbering>(rules: &Rules<N>, acts: &[Act<N::Number>]) -> Result<(), RunFault>
    ensures { result ≡ acts_vetted (N.Numbering.meaning rules.now.numbering.now) rules.now.settings acts.now }
{
    pass_acts(rules, acts, ActCase::Sensors)?;
    pass_acts(rules, acts, ActCase::Limits)?;
    Ok(())
}
