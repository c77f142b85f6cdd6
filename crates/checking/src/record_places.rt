// The cases of records, at a place.
ghost use Rattle.std.specs.Prelude.{◌≡◌};
ghost use Rattle.std.specs.List.{list_all};
ghost use Rattle.checking.specs.Cases.{bad_length, unknown_kind, zeros, not_zero};

use records::{Kind, Record};

pub fn bad_length(file: &[u8]) -> bool
    ensures { result ≡ bad_length file.now }
{
    file.len() > 48000 || file.len() % 12 != 0
}

pub fn unknown_kind(here: Record) -> bool
    ensures { result ≡ unknown_kind here.entry.file.now here.entry.place }
{
    here.kind().is_err()
}

// Are these bytes of a record zero?
fn zeros(here: Record, unused: &[usize]) -> bool
    ensures { result ≡ list_all (zeros here.entry.file.now here.entry.place) unused.now }
{
    unused.iter().all(|at| here.byte(*at) == 0)
}

// Each kind leaves other bytes unused.
pub fn not_zero(here: Record) -> bool
    ensures { result ≡ not_zero here.entry.file.now here.entry.place }
{
    match here.kind() {
        Ok(Kind::Sensor) => !zeros(here, &[3, 6, 7]),
        Ok(Kind::Link) => !zeros(here, &[4, 5, 6, 7, 8, 9, 10, 11]),
        Ok(Kind::Loss) => !zeros(here, &[3, 8, 9, 10, 11]),
        Ok(Kind::Play) => !zeros(here, &[1, 2, 3, 8, 9, 10, 11]),
        Ok(Kind::Field) | Err(_) => false,
    }
}
