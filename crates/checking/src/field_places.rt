// The cases of a field, at a place.
ghost use Rattle.std.specs.Prelude.{◌≡◌, ◌+◌};
ghost use Rattle.filed.specs.Codes.{lawful_value};
ghost use Rattle.checking.specs.Cases.{misplaced, out_of_order, SettingsIn, bad_setting, no_sensor, link_at, links, linked, bad_link, outnumbers, too_many, mark_at, clock_at, number_at, bad_row, no_link};

use field::{Ends, Limits, Link, Settings};
use filed::FileNumbering;
use records::{Kind, Record, record_count};
use refusal::FieldFault;
use search::{Case, lowest};

fn misplaced(here: Record, before: usize) -> bool
    requires { here.place ≡ before + 1 }
    ensures { result ≡ misplaced here.entry.file.now here.entry.place }
{
    let first = here.place == usize::from(here.at(0).byte(2)) + 1;
    let after_link = first || here.at(before).is(Kind::Link);
    let after_loss = after_link || here.at(before).is(Kind::Loss);
    here.is(Kind::Field) || here.is(Kind::Link) && !after_link || here.is(Kind::Loss) && !after_loss
}

pub fn out_of_order(here: Record) -> bool
    ensures { result ≡ out_of_order here.entry.file.now here.entry.place }
{
    let place = here.place;
    let n = usize::from(here.at(0).byte(2));
    if place >= record_count(here.file) {
        return place <= n;
    }
    if place == 0 {
        return !here.is(Kind::Field);
    }
    if place <= n {
        return !(here.is(Kind::Sensor) && usize::from(here.byte(1)) == place - 1);
    }
    misplaced(here, place - 1)
}

// The settings that a file's first record writes.
pub fn settings_in(file: &[u8]) -> Result<Settings, FieldFault>
    ensures { SettingsIn file.now result }
{
    let head = Record { file, place: 0 };
    Settings::new(
        head.byte(2),
        head.byte(3),
        head.byte(4),
        head.two_bytes(6),
        head.four_bytes(8),
    )
}

// By the code's byte, which may be none of the four: each case is judged for itself.
fn lawful_value(code: u8, smax: u8, value: u32) -> bool
    ensures { result ≡ lawful_value code smax value }
{
    match code {
        0 => value == 0,
        1 => true,
        _ => value <= u32::from(smax),
    }
}

pub fn bad_setting(file: &[u8]) -> bool
    ensures { result ≡ bad_setting file.now }
{
    let head = Record { file, place: 0 };
    let numbering = FileNumbering::new(head.byte(1), head.byte(5));
    settings_in(file).is_err() || numbering.is_none()
}

// No `From`: neither a record nor a link is this crate's.
pub fn link_at(here: Record) -> Link
    ensures { result ≡ link_at here.entry.file.now here.entry.place }
{
    Link {
        from: here.byte(1),
        to: here.byte(2),
        label: here.byte(3),
    }
}

pub fn no_sensor(here: Record) -> bool
    ensures { result ≡ no_sensor here.entry.file.now here.entry.place }
{
    let n = here.at(0).byte(2);
    let pair = here.is(Kind::Link) || here.is(Kind::Loss);
    pair && !Ends::from(link_at(here)).are_within(n) || here.is(Kind::Sensor) && !(here.byte(1) < n)
}

// A link that joins two ends, among the first records.
#[derive(Drop)]
struct Joining<'a> {
    file: &'a [u8],
    count: usize,
    ends: Ends,
}

impl Case for Joining<'_> {
    type Fault = ();

    ghost count = { λ s. s.count };

    ghost at = { λ s. links s.file.now s.ends.from s.ends.to };

    ghost told = { λ _ _. tt };

    fn places(&self) -> usize {
        self.count
    }

    fn holds(&self, place: usize) -> bool {
        let file = self.file;
        let here = Record { file, place };
        here.is(Kind::Link) && link_at(here).joins(self.ends)
    }

    fn fault(&self, _place: usize) {}
}

// Does one of the first records link these ends? A slice would have to be cut from the bytes first.
fn linked(file: &[u8], count: usize, ends: Ends) -> bool
    ensures { result ≡ linked file.now count ends.from ends.to }
{
    lowest(&Joining { file, count, ends }).is_some()
}

pub fn bad_link(here: Record) -> bool
    ensures { result ≡ bad_link here.entry.file.now here.entry.place }
{
    let link = link_at(here);
    here.is(Kind::Link) && (!link.keeps() || linked(here.file, here.place, Ends::from(link)))
}

// Is this record of a kind that stood so many records before too?
fn outnumbers(here: Record, kind: Kind, most: usize) -> bool
    ensures { result ≡ outnumbers here.entry.file.now here.entry.place kind most }
{
    let place = here.place;
    here.is(kind) && place >= most && here.at(place - most).is(kind)
}

pub fn too_many(here: Record) -> bool
    ensures { result ≡ too_many here.entry.file.now here.entry.place }
{
    outnumbers(here, Kind::Link, 1024) || outnumbers(here, Kind::Loss, 256)
}

// No `TryFrom`: a byte and an optional hop are both types of std's.
pub fn mark_at(here: Record) -> Option<u8>
    ensures { result ≡ mark_at here.entry.file.now here.entry.place }
{
    match here.byte(2) {
        255 => None,
        hop => Some(hop),
    }
}

fn clock_keeps(here: Record) -> bool
    ensures { result ≡ clock_at here.entry.file.now here.entry.place }
{
    let head = here.at(0);
    let limits = Limits {
        hmax: head.byte(3),
        tmax: head.byte(4),
        f: head.two_bytes(6),
    };
    let sensor = usize::from(here.byte(1));
    limits.keep(sensor, here.two_bytes(4), mark_at(here))
}

fn number_keeps(here: Record) -> bool
    ensures { result ≡ number_at here.entry.file.now here.entry.place }
{
    let head = here.at(0);
    lawful_value(head.byte(1), head.byte(5), here.four_bytes(8))
}

pub fn bad_row(here: Record) -> bool
    ensures { result ≡ bad_row here.entry.file.now here.entry.place }
{
    here.is(Kind::Sensor) && !(clock_keeps(here) && number_keeps(here))
}

pub fn no_link(here: Record) -> bool
    ensures { result ≡ no_link here.entry.file.now here.entry.place }
{
    let file = here.file;
    here.is(Kind::Loss) && !linked(file, record_count(file), Ends::from(link_at(here)))
}
