// What a file's records are read as.
#![tactic(auto)]

ghost use Rattle.std.specs.Prelude.{◌≡◌, ℕ, List, Option, Some};
ghost use Rattle.checking.specs.Cases.{link_at};
ghost use Rattle.reading.specs.Items.{loss_at, row_at, damage_at, act_at};

use checking::{link_at, mark_at};
use field::{Act, Damage, Link, Loss, Row};
use numbering::NumberKind;
use records::{Kind, Record};

// What a record can be read as, or not where its number is none of the kind.
pub trait FromRecord: Copy {
    ghost read: { List ℕ → ℕ → Option Self };

    fn from_record(here: Record) -> Option<Self>
        ensures { result ≡ read here.entry.file.now here.entry.place };
}

impl FromRecord for Link {
    ghost read = { λ file k. Some (link_at file k) };

    fn from_record(here: Record) -> Option<Link> {
        Some(link_at(here))
    }
}

// No `From`: neither a record nor a loss is this crate's.
pub fn loss_at(here: Record) -> Loss
    ensures { result ≡ loss_at here.entry.file.now here.entry.place }
{
    Loss {
        from: here.byte(1),
        to: here.byte(2),
        instant: here.four_bytes(4),
    }
}

impl FromRecord for Loss {
    ghost read = { λ file k. Some (loss_at file k) };

    fn from_record(here: Record) -> Option<Loss> {
        Some(loss_at(here))
    }
}

impl<K: NumberKind> FromRecord for Row<K> {
    ghost read = { row_at K.NumberKind.of };

    fn from_record(here: Record) -> Option<Row<K>> {
        let held = K::of_value(here.four_bytes(8))?;
        Some(Row {
            timer: here.two_bytes(4),
            held,
            mark: mark_at(here),
            outgoing: None,
        })
    }
}

impl<K: NumberKind> FromRecord for Damage<K> {
    ghost read = { damage_at K.NumberKind.of };

    fn from_record(here: Record) -> Option<Damage<K>> {
        let row = Row::<K>::from_record(here)?;
        Some(Damage {
            sensor: here.byte(1),
            timer: row.timer,
            mark: row.mark,
            held: row.held,
        })
    }
}

// Past the losses a sensor's record is a damage.
impl<K: NumberKind> FromRecord for Act<K> {
    ghost read = { act_at K.NumberKind.of };

    fn from_record(here: Record) -> Option<Act<K>> {
        if here.is(Kind::Play) {
            return Some(Act::Play(here.four_bytes(4)));
        }
        let damage = Damage::from_record(here)?;
        Some(Act::Damage(damage))
    }
}
