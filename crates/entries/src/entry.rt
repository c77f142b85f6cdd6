// What a line of a listing says, as a record of a file.
ghost use Rattle.entries.specs.Entries.{entry_bytes};

use field::{Link, Loss};
use recording::{Head, Recorded, Sensor, play_record};

// What stands in a line: plain numbers, which may break a limit.
#[derive(Clone, Copy, PartialEq, Eq, Debug)]
pub enum Entry {
    Field(Head),
    Row(Sensor),
    Link(Link),
    Loss(Loss),
    Play(u32),
    Damage(Sensor),
}

impl Recorded for Entry {
    ghost bytes = { entry_bytes };

    fn record(self) -> [u8; 12] {
        match self {
            Entry::Field(head) => head.record(),
            Entry::Row(sensor) | Entry::Damage(sensor) => sensor.record(),
            Entry::Link(link) => link.record(),
            Entry::Loss(loss) => loss.record(),
            Entry::Play(budget) => play_record(budget),
        }
    }
}
