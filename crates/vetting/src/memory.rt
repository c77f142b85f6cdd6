// A field in memory, and each case in which it is none.
ghost use Rattle.std.specs.Prelude.{◌≡◌};
ghost use Rattle.vetting.specs.Cases.{bad_byte, bad_damage, bad_link, bad_row, breaks_limits, case_at, case_fault, case_places, fault_in, first_fault, names_none, no_link, no_sensor, seen_in, too_many};

use crate::cases::MemoryCase;
use crate::linked::linked;
use crate::named::Named;
use field::{Ends, Link, Loss, Row, Rules, Stage};
use numbering::Numbering;
use refusal::FieldFault;
use search::{Case, pass};

// What a call sees of a field at a stage: the links that were told, with how many were told, and what
// the call names. Where no sender byte is to be looked at, none is lent.
#[derive(Drop)]
pub struct InMemory<'n, 'r, 's, 'l, 'x, N: Numbering> {
    pub rules: Rules<'n, N>,
    pub stage: Stage,
    pub rows: &'r [Row<N::Number>],
    pub senders: &'s [u8],
    pub links: &'l [Link],
    pub count: usize,
    pub losses: &'x [Loss],
    pub named: Named<N::Number>,
}

// A case of what is in memory: one type for all of them, as `checking` has for a file's.
#[derive(Drop)]
struct OfMemory<'m, 'n, 'r, 's, 'l, 'x, N: Numbering> {
    memory: &'m InMemory<'n, 'r, 's, 'l, 'x, N>,
    case: MemoryCase,
}

impl<'m, 'n, 'r, 's, 'l, 'x, N: Numbering> Case for OfMemory<'m, 'n, 'r, 's, 'l, 'x, N> {
    type Fault = FieldFault;

    ghost count = { λ s. case_places (seen_in N.Numbering.meaning s.memory.now) s.case };

    ghost at = { λ s. case_at (seen_in N.Numbering.meaning s.memory.now) s.case };

    ghost told = { λ s. case_fault s.case };

    fn places(&self) -> usize {
        let memory = self.memory;
        match self.case {
            MemoryCase::Sensors => memory
                .links
                .len()
                .max(memory.losses.len())
                .max(memory.named.places()),
            MemoryCase::Links { .. } => memory.links.len(),
            MemoryCase::Count => 1025,
            MemoryCase::Rows => usize::from(memory.rules.settings.n),
            MemoryCase::Losses => memory.losses.len(),
        }
    }

    fn holds(&self, place: usize) -> bool {
        match self.case {
            MemoryCase::Sensors => self.memory.no_sensor(place),
            MemoryCase::Links { repeats } => self.memory.bad_link(repeats, place),
            MemoryCase::Count => self.memory.too_many(place),
            MemoryCase::Rows => self.memory.bad_row(place),
            MemoryCase::Losses => self.memory.no_link(place),
        }
    }

    fn fault(&self, place: usize) -> FieldFault {
        match self.case {
            MemoryCase::Sensors => FieldFault::NoSensor(place),
            MemoryCase::Links { .. } => FieldFault::BadLink(place),
            MemoryCase::Count => FieldFault::TooMany(place),
            MemoryCase::Rows => FieldFault::BadRow(place),
            MemoryCase::Losses => FieldFault::NoLink(place),
        }
    }
}

impl<N: Numbering> InMemory<'_, '_, '_, '_, '_, N> {
    fn names_none(&self, place: usize) -> bool
        ensures { result ≡ names_none (seen_in N.Numbering.meaning self.now) place }
    {
        match self.named.sensor() {
            Some(sensor) => place == usize::from(sensor) && !(sensor < self.rules.settings.n),
            None => false,
        }
    }

    // Links and losses are lists of two types: here and in `too_many` each has its half.
    fn no_sensor(&self, place: usize) -> bool
        ensures { result ≡ no_sensor (seen_in N.Numbering.meaning self.now) place }
    {
        let n = self.rules.settings.n;
        let of_link = self
            .links
            .get(place)
            .is_some_and(|link| !Ends::from(*link).are_within(n));
        let of_loss = self
            .losses
            .get(place)
            .is_some_and(|loss| !Ends::from(*loss).are_within(n));
        of_link || of_loss || self.names_none(place)
    }

    fn bad_link(&self, repeats: bool, place: usize) -> bool
        ensures { result ≡ bad_link (seen_in N.Numbering.meaning self.now) repeats place }
    {
        self.links.get(place).is_some_and(|link| !link.keeps()
            || repeats && linked(self.links, place, Ends::from(*link)))
    }

    fn too_many(&self, place: usize) -> bool
        ensures { result ≡ too_many (seen_in N.Numbering.meaning self.now) place }
    {
        place == 1024 && self.count > 1024 || place == 256 && self.losses.len() > 256
    }

    fn bad_byte(&self, place: usize) -> bool
        ensures { result ≡ bad_byte (seen_in N.Numbering.meaning self.now) place }
    {
        match (self.rows.get(place), self.senders.get(place)) {
            (Some(row), Some(byte)) => *byte != row.sender_byte(),
            _ => false,
        }
    }

    fn bad_damage(&self, place: usize) -> bool
        ensures { result ≡ bad_damage (seen_in N.Numbering.meaning self.now) self.now.named place }
    {
        match self.named {
            Named::Damaged(damage) => place == usize::from(damage.sensor)
                && !self.rules.damage_keeps(damage),
            Named::Nothing | Named::Sensor(_) => false,
        }
    }

    // A match, since with a closure over the rules the search for its proof gave up.
    fn breaks_limits(&self, place: usize) -> bool
        ensures { result ≡ breaks_limits (seen_in N.Numbering.meaning self.now) place }
    {
        match self.rows.get(place) {
            Some(row) => !self.rules.row_keeps(self.stage, place, *row),
            None => false,
        }
    }

    fn bad_row(&self, place: usize) -> bool
        ensures { result ≡ bad_row (seen_in N.Numbering.meaning self.now) place }
    {
        self.breaks_limits(place) || self.bad_byte(place) || self.bad_damage(place)
    }

    fn no_link(&self, place: usize) -> bool
        ensures { result ≡ no_link (seen_in N.Numbering.meaning self.now) place }
    {
        self.losses.get(place).is_some_and(|loss| {
            let ends = Ends::from(*loss);
            !linked(self.links, self.links.len(), ends)
        })
    }

    #[tactic(auto, unfolding(crate::specs::Cases::fault_in))]
    fn fault_in(&self, case: MemoryCase) -> Result<(), FieldFault>
        ensures { result ≡ fault_in (seen_in N.Numbering.meaning self.now) case }
    {
        pass(&OfMemory { memory: self, case })
    }

    // The first of these cases that holds, at its lowest place, or nothing.
    pub fn first_fault(&self, cases: &[MemoryCase]) -> Result<(), FieldFault>
        ensures { result ≡ first_fault (seen_in N.Numbering.meaning self.now) cases.now }
    {
        for case in cases {
            self.fault_in(*case)?;
        }
        Ok(())
    }
}
