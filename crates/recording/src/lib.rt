// Records of 12 bytes, as a file has them.
#![tactic(auto)]

ghost use Rattle.std.specs.Prelude.{◌≡◌, ℕ, List};
ghost use Rattle.page.specs.Pages.{joined};
ghost use Rattle.records.specs.Kinds.{letter};
ghost use Rattle.recording.specs.Records.{mark_byte, head_bytes, head_record, sensor_bytes, link_record, middle_record, loss_record, play_record, row_record, act_record};

mod plain;

use field::{Act, Link, Loss, Row, Settings};
use numbering::NumberKind;
use page::{Pen, Text};
pub use plain::{Head, Sensor};
use records::Kind;

// No `From`: an optional hop and a byte are both types of std's.
fn mark_byte(mark: Option<u8>) -> u8
    ensures { result ≡ mark_byte mark }
{
    mark.unwrap_or(255)
}

// A kind, two bytes, and a number of four in the middle.
fn middle_record(kind: Kind, first: u8, second: u8, number: u32) -> [u8; 12]
    ensures { result ≡ middle_record (letter kind) first second number }
{
    let number = number.to_be_bytes();
    [
        kind.into(),
        first,
        second,
        0,
        number[0],
        number[1],
        number[2],
        number[3],
        0,
        0,
        0,
        0,
    ]
}

// So many instants are to be played.
pub fn play_record(budget: u32) -> [u8; 12]
    ensures { result ≡ play_record budget }
{
    middle_record(Kind::Play, 0, 0, budget)
}

// What has a record of its own, wherever it stands.
pub trait Recorded: Copy {
    ghost bytes: { Self → List ℕ };

    fn record(self) -> [u8; 12]
        ensures { result ≡ bytes self };
}

impl Recorded for Head {
    ghost bytes = { head_bytes };

    #[tactic(auto, using(crate::proofs::BigEndian::two_bytes, crate::proofs::BigEndian::four_bytes))]
    fn record(self) -> [u8; 12] {
        let f = self.f.to_be_bytes();
        let seed = self.seed.to_be_bytes();
        [
            Kind::Field.into(),
            self.code,
            self.n,
            self.hmax,
            self.tmax,
            self.smax,
            f[0],
            f[1],
            seed[0],
            seed[1],
            seed[2],
            seed[3],
        ]
    }
}

// The first record, with the code and the smax that any `Filed` numbering has.
pub fn head_record(code: u8, smax: u8, settings: Settings) -> [u8; 12]
    ensures { result ≡ head_record code smax settings }
{
    let head = Head {
        code,
        smax,
        n: settings.n,
        hmax: settings.hmax,
        tmax: settings.tmax,
        f: settings.f,
        seed: settings.seed,
    };
    head.record()
}

impl Recorded for Sensor {
    ghost bytes = { sensor_bytes };

    #[tactic(auto, using(crate::proofs::BigEndian::two_bytes, crate::proofs::BigEndian::four_bytes))]
    fn record(self) -> [u8; 12] {
        let timer = self.timer.to_be_bytes();
        let value = self.value.to_be_bytes();
        [
            Kind::Sensor.into(),
            self.sensor,
            mark_byte(self.mark),
            0,
            timer[0],
            timer[1],
            0,
            0,
            value[0],
            value[1],
            value[2],
            value[3],
        ]
    }
}

// A row. It does not tell its sensor, so it is no `Recorded`.
pub fn row_record<K: NumberKind>(sensor: u8, row: Row<K>) -> [u8; 12]
    ensures { result ≡ row_record K.NumberKind.worth sensor row }
{
    let sensor = Sensor {
        sensor,
        timer: row.timer,
        value: row.held.value(),
        mark: row.mark,
    };
    sensor.record()
}

impl Recorded for Link {
    ghost bytes = { link_record };

    fn record(self) -> [u8; 12] {
        [
            Kind::Link.into(),
            self.from,
            self.to,
            self.label,
            0,
            0,
            0,
            0,
            0,
            0,
            0,
            0,
        ]
    }
}

impl Recorded for Loss {
    ghost bytes = { loss_record };

    fn record(self) -> [u8; 12] {
        middle_record(Kind::Loss, self.from, self.to, self.instant)
    }
}

// A play or a damage.
impl<K: NumberKind> Recorded for Act<K> {
    ghost bytes = { act_record K.NumberKind.worth };

    fn record(self) -> [u8; 12] {
        match self {
            Act::Play(budget) => play_record(budget),
            Act::Damage(damage) => {
                let sensor = Sensor {
                    sensor: damage.sensor,
                    timer: damage.timer,
                    value: damage.held.value(),
                    mark: damage.mark,
                };
                sensor.record()
            }
        }
    }
}

// Items as their records, one behind another.
#[derive(Drop)]
pub struct Records<'a, R>(pub &'a [R]);

impl<'a, R: Recorded> Text for Records<'a, R> {
    ghost text = { λ s. joined (λ place. R.Recorded.bytes) 0 s.0.now };

    fn put(&self, pen: &mut Pen) {
        for item in self.0 {
            pen.bytes(&item.record());
        }
    }
}
