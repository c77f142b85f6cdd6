// The lines of a file, one behind another.
ghost use Rattle.page.specs.Pens.{Wrote};
ghost use Rattle.records.specs.Records.{records};
ghost use Rattle.listing.specs.Lines.{head_line, sensor_line, record_line, lines};

use crate::lines::{put_field, put_link, put_loss, put_play, put_row};
use checking::{link_at, mark_at};
use page::{Pen, Text};
use reading::loss_at;
use recording::{Head, Sensor};
use records::{Kind, Record, record_count};

fn put_head(pen: &mut Pen, file: &[u8])
    ensures { Wrote pen.old pen.new (head_line file.now) }
{
    let record = Record { file, place: 0 };
    let head = Head {
        code: record.byte(1),
        smax: record.byte(5),
        n: record.byte(2),
        hmax: record.byte(3),
        tmax: record.byte(4),
        f: record.two_bytes(6),
        seed: record.four_bytes(8),
    };
    put_field(pen, head)
}

fn put_sensor(pen: &mut Pen, word: &str, here: Record)
    ensures { Wrote pen.old pen.new (sensor_line here.entry.file.now word.now here.entry.place) }
{
    let sensor = Sensor {
        sensor: here.byte(1),
        timer: here.two_bytes(4),
        value: here.four_bytes(8),
        mark: mark_at(here),
    };
    put_row(pen, word, sensor)
}

fn put_record(pen: &mut Pen, here: Record)
    ensures { Wrote pen.old pen.new (record_line here.entry.file.now here.entry.place) }
{
    if here.place == 0 {
        return put_head(pen, here.file);
    }
    if here.place <= usize::from(here.at(0).byte(2)) {
        return put_sensor(pen, "sensor", here);
    }
    match here.kind() {
        Ok(Kind::Link) => put_link(pen, link_at(here)),
        Ok(Kind::Loss) => put_loss(pen, loss_at(here)),
        Ok(Kind::Play) => put_play(pen, here.four_bytes(4)),
        _ => put_sensor(pen, "damage", here),
    }
}

// The listing of a file.
#[derive(Drop)]
pub struct Listing<'a> {
    pub file: &'a [u8],
}

impl<'a> Text for Listing<'a> {
    ghost text = { λ s. lines s.file.now (records s.file.now) };

    fn put(&self, pen: &mut Pen) {
        // By place, since a record's place says what it is.
        for place in 0..record_count(self.file) {
            let file = self.file;
            put_record(pen, Record { file, place });
        }
    }
}
