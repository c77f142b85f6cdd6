// A field that is to be written.
ghost use Rattle.std.specs.Prelude.{◌≡◌};
ghost use Rattle.vetting.specs.Cases.{seen_in};
ghost use Rattle.vetting.specs.Vetted.{drafted, vetted};

use crate::cases::MemoryCase;
use crate::memory::InMemory;
use crate::named::Named;
use field::{Link, Loss, Row, Rules, Stage};
use numbering::Numbering;
use refusal::RunFault;

// What is to be written as a field.
#[derive(Drop)]
pub struct Draft<'n, 'r, 'l, 'x, N: Numbering> {
    pub rules: Rules<'n, N>,
    pub rows: &'r [Row<N::Number>],
    pub links: &'l [Link],
    pub losses: &'x [Loss],
}

impl<N: Numbering> Draft<'_, '_, '_, '_, N> {
    // Whether this is a field: nothing, or the first case that holds, at its lowest place.
    pub fn vet(&self) -> Result<(), RunFault>
        ensures { result ≡ vetted (N.Numbering.meaning self.now.rules.numbering.now) self.now.rules.settings self.now.rows.now self.now.links.now self.now.losses.now }
    {
        let memory = InMemory {
            rules: Rules {
                numbering: self.rules.numbering,
                settings: self.rules.settings,
            },
            stage: Stage::Between,
            rows: self.rows,
            senders: &[],
            links: self.links,
            count: self.links.len(),
            losses: self.losses,
            named: Named::Nothing,
        };
        memory.first_fault(&[
            MemoryCase::Sensors,
            MemoryCase::Links { repeats: true },
            MemoryCase::Count,
            MemoryCase::Rows,
            MemoryCase::Losses,
        ])?;
        if self.rows.len() < usize::from(self.rules.settings.n) {
            return Err(RunFault::ShortBuffer);
        }
        Ok(())
    }
}
