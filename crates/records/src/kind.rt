// What a record is of, by the letter that is its first byte.
ghost use Rattle.std.specs.Prelude.{◌≡◌};
ghost use Rattle.records.specs.Kinds.{letter, kind_of};

#[derive(Clone, Copy, PartialEq, Eq, Debug)]
pub enum Kind {
    Field,
    Sensor,
    Link,
    Loss,
    Play,
}

// A byte that is no kind's letter.
#[derive(Clone, Copy, PartialEq, Eq, Debug)]
pub struct UnknownLetter(pub u8);

impl From<Kind> for u8 {
    ghost from_gives = { λ kind r. r ≡ letter kind };

    fn from(kind: Kind) -> u8 {
        match kind {
            Kind::Field => b'F',
            Kind::Sensor => b'S',
            Kind::Link => b'L',
            Kind::Loss => b'X',
            Kind::Play => b'P',
        }
    }
}

impl TryFrom<u8> for Kind {
    type Error = UnknownLetter;

    ghost try_from_gives = { λ byte r. r ≡ kind_of byte };

    fn try_from(byte: u8) -> Result<Kind, UnknownLetter> {
        match byte {
            b'F' => Ok(Kind::Field),
            b'S' => Ok(Kind::Sensor),
            b'L' => Ok(Kind::Link),
            b'X' => Ok(Kind::Loss),
            b'P' => Ok(Kind::Play),
            _ => Err(UnknownLetter(byte)),
        }
    }
}
