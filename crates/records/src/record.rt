// A record of a file, and what its bytes are.
ghost use Rattle.std.specs.Prelude.{◌≡◌, ◌+◌, ◌*◌};
ghost use Rattle.std.specs.List.{slice_get};
ghost use Rattle.records.specs.Kinds.{kind_of};
ghost use Rattle.records.specs.Records.{records, byte, two_bytes, four_bytes, is_kind};

use crate::kind::{Kind, UnknownLetter};

// A record by its place in a file. Where the file has none, each of its bytes is 0.
#[derive(Clone, Copy)]
pub struct Record<'a> {
    pub file: &'a [u8],
    pub place: usize,
}

// How many whole records a file has.
pub fn record_count(file: &[u8]) -> usize
    ensures { result ≡ records file.now }
{
    file.len() / 12
}

impl<'a> Record<'a> {
    // The record at another place of the same file.
    pub fn at(self, place: usize) -> Record<'a>
        ensures file { result.file.now ≡ self.entry.file.now }
        ensures place { result.place ≡ place }
    {
        Record { place, ..self }
    }

    fn get(self, at: usize) -> Option<u8>
        ensures { result ≡ slice_get self.entry.file.now (12 * self.entry.place + at) }
    {
        let index = self.place.checked_mul(12)?.checked_add(at)?;
        self.file.get(index).copied()
    }

    // The record's byte, and 0 where there is none.
    pub fn byte(self, at: usize) -> u8
        ensures { result ≡ byte self.entry.file.now self.entry.place at }
    {
        self.get(at).unwrap_or(0)
    }

    // Two bytes as a number; `from_be_bytes` is each width's own.
    pub fn two_bytes(self, at: u16) -> u16
        ensures { result ≡ two_bytes self.entry.file.now self.entry.place at }
    {
        let at = usize::from(at);
        u16::from_be_bytes([self.byte(at), self.byte(at + 1)])
    }

    // Four bytes as a number.
    pub fn four_bytes(self, at: u8) -> u32
        ensures { result ≡ four_bytes self.entry.file.now self.entry.place at }
    {
        let at = usize::from(at);
        u32::from_be_bytes([
            self.byte(at),
            self.byte(at + 1),
            self.byte(at + 2),
            self.byte(at + 3),
        ])
    }

    // The kind whose letter it begins with.
    pub fn kind(self) -> Result<Kind, UnknownLetter>
        ensures { result ≡ kind_of (byte self.entry.file.now self.entry.place 0) }
    {
        Kind::try_from(self.byte(0))
    }

    // Is this record of this kind?
    pub fn is(self, kind: Kind) -> bool
        ensures { result ≡ is_kind self.entry.file.now self.entry.place kind }
    {
        self.byte(0) == u8::from(kind)
    }
}
