// The limits of rows.
ghost use Rattle.std.specs.Prelude.{◌≡◌};
ghost use Rattle.field.specs.Rows.{clock_keeps, damage_keeps, mark_keeps, outgoing_keeps, row_keeps, limits_of, sender_byte};

use crate::parts::{Damage, Message, Row};
use crate::settings::Settings;
use numbering::Numbering;

// When a row is looked at: as a run begins, between two instants, or within one.
#[derive(Clone, Copy, PartialEq, Eq, Debug)]
pub enum Stage {
    Beginning,
    Between,
    Within,
}

// What bounds the timers and marks of a field, and the hops of its messages.
#[derive(Clone, Copy)]
pub struct Limits {
    pub hmax: u8,
    pub tmax: u8,
    pub f: u16,
}

impl Limits {
    // Do a sensor's timer and mark keep them?
    pub fn keep(self, sensor: usize, timer: u16, mark: Option<u8>) -> bool
        ensures { result ≡ clock_keeps self.hmax self.tmax self.f sensor timer mark }
    {
        let longest = if sensor == 0 {
            self.f
        } else {
            u16::from(self.tmax)
        };
        1 <= timer && timer <= longest && self.keep_mark(sensor, mark)
    }

    fn keep_mark(self, sensor: usize, mark: Option<u8>) -> bool
        ensures { result ≡ mark_keeps self.hmax sensor mark }
    {
        match mark {
            Some(hop) => sensor != 0 && hop <= self.hmax,
            None => true,
        }
    }
}

impl Settings {
    pub fn limits(self) -> Limits
        ensures { result ≡ limits_of self }
    {
        Limits {
            hmax: self.hmax,
            tmax: self.tmax,
            f: self.f,
        }
    }
}

impl<Number: Copy> Row<Number> {
    // The byte of the sensor whose row this is: 1 while it has something to send, and else 0.
    pub fn sender_byte(&self) -> u8
        ensures { result ≡ sender_byte self.now }
    {
        match self.outgoing {
            Some(_) => 1,
            None => 0,
        }
    }
}

// What a field is played by: a numbering, and settings.
#[derive(Drop)]
pub struct Rules<'a, N: Numbering> {
    pub numbering: &'a N,
    pub settings: Settings,
}

impl<N: Numbering> Rules<'_, N> {
    fn outgoing_keeps(&self, stage: Stage, outgoing: Option<Message<N::Number>>) -> bool
        ensures { result ≡ outgoing_keeps (N.Numbering.meaning self.now.numbering.now) self.now.settings stage outgoing }
    {
        match (stage, outgoing) {
            (Stage::Beginning, _) => true,
            (_, None) => true,
            (Stage::Between, Some(_)) => false,
            (Stage::Within, Some(message)) => message.hop <= self.settings.hmax
                && self.numbering.lawful(message.number),
        }
    }

    // Does what a damage would write keep its limits?
    pub fn damage_keeps(&self, damage: Damage<N::Number>) -> bool
        ensures { result ≡ damage_keeps (N.Numbering.meaning self.now.numbering.now) self.now.settings damage }
    {
        let sensor = usize::from(damage.sensor);
        self.settings
            .limits()
            .keep(sensor, damage.timer, damage.mark)
            && self.numbering.lawful(damage.held)
    }

    // Does a sensor's row keep its limits?
    pub fn row_keeps(&self, stage: Stage, sensor: usize, row: Row<N::Number>) -> bool
        ensures { result ≡ row_keeps (N.Numbering.meaning self.now.numbering.now) self.now.settings stage sensor row }
    {
        self.settings.limits().keep(sensor, row.timer, row.mark)
            && self.numbering.lawful(row.held)
            && self.outgoing_keeps(stage, row.outgoing)
    }
}
