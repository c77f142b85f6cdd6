// Why a call declines: three enums, the lower carried whole inside the higher.
#![tactic(auto)]

ghost use Rattle.std.specs.Prelude.{◌≡◌};
ghost use Rattle.refusal.specs.Refusals.{tells, record_told, field_told, run_told};
ghost use Rattle.refusal.specs.declared.FieldFault.TheVariants.{Record};
ghost use Rattle.refusal.specs.declared.RunFault.TheVariants.{Field};

mod causes;

// Where a case is looked for: in the records of a file, in a field, or in a run.
#[derive(Clone, Copy, PartialEq, Eq, Debug)]
pub enum Layer {
    Record,
    Field,
    Run,
}

// What a refusal tells. The place is the index of a record, a link, a sensor or a loss, or 0.
#[derive(Clone, Copy, PartialEq, Eq, Debug)]
pub struct Told {
    pub number: u8,
    pub place: usize,
    pub layer: Layer,
}

// A file is no row of records.
#[derive(Clone, Copy, PartialEq, Eq, Debug)]
pub enum RecordFault {
    // It is longer than 48,000 bytes, or no multiple of 12.
    BadLength,
    // The kind byte is unknown.
    UnknownKind(usize),
    // A byte that must be zero is not.
    NotZero(usize),
}

// Records, or parts in memory, make no field.
#[derive(Clone, Copy, PartialEq, Eq, Debug)]
pub enum FieldFault {
    Record(RecordFault),
    // A record is missing or stands out of order.
    OutOfOrder(usize),
    // A setting breaks its limit.
    BadSetting,
    // A sensor index is n or more.
    NoSensor(usize),
    // A link has equal ends, goes into sensor 0, has a label above 100, or repeats an earlier one.
    BadLink(usize),
    // There are over 1,024 links or 256 losses.
    TooMany(usize),
    // A row breaks its limits, or its sender byte does not fit it.
    BadRow(usize),
    // A loss names a pair without a link.
    NoLink(usize),
}

// A field does not run on.
#[derive(Clone, Copy, PartialEq, Eq, Debug)]
pub enum RunFault {
    Field(FieldFault),
    // A buffer is shorter than the field.
    ShortBuffer,
    // Instant 4,294,967,295 has been opened already.
    LastInstant,
    // Sensor 0 must send, and no number follows.
    NoNumber,
    // Close comes while a copy is left.
    CopyLeft,
    // The output of write or print does not fit.
    NoRoom,
}

impl From<RecordFault> for FieldFault {
    ghost from_gives = { λ fault r. r ≡ Record fault };

    fn from(fault: RecordFault) -> FieldFault {
        FieldFault::Record(fault)
    }
}

impl From<FieldFault> for RunFault {
    ghost from_gives = { λ fault r. r ≡ Field fault };

    fn from(fault: FieldFault) -> RunFault {
        RunFault::Field(fault)
    }
}

impl From<RecordFault> for RunFault {
    ghost from_gives = { λ fault r. r ≡ Field (Record fault) };

    fn from(fault: RecordFault) -> RunFault {
        RunFault::from(FieldFault::from(fault))
    }
}

fn tell(number: u8, place: usize, layer: Layer) -> Told
    ensures { result ≡ tells number place layer }
{
    Told {
        number,
        place,
        layer,
    }
}

impl RecordFault {
    pub fn told(self) -> Told
        ensures { result ≡ record_told self }
    {
        match self {
            RecordFault::BadLength => tell(1, 0, Layer::Record),
            RecordFault::UnknownKind(record) => tell(2, record, Layer::Record),
            RecordFault::NotZero(record) => tell(3, record, Layer::Record),
        }
    }
}

impl FieldFault {
    pub fn told(self) -> Told
        ensures { result ≡ field_told self }
    {
        match self {
            FieldFault::Record(lower) => lower.told(),
            FieldFault::OutOfOrder(place) => tell(4, place, Layer::Field),
            FieldFault::BadSetting => tell(5, 0, Layer::Field),
            FieldFault::NoSensor(place) => tell(6, place, Layer::Field),
            FieldFault::BadLink(place) => tell(7, place, Layer::Field),
            FieldFault::TooMany(place) => tell(8, place, Layer::Field),
            FieldFault::BadRow(place) => tell(9, place, Layer::Field),
            FieldFault::NoLink(place) => tell(10, place, Layer::Field),
        }
    }
}

impl RunFault {
    pub fn told(self) -> Told
        ensures { result ≡ run_told self }
    {
        match self {
            RunFault::Field(lower) => lower.told(),
            RunFault::ShortBuffer => tell(11, 0, Layer::Run),
            RunFault::LastInstant => tell(12, 0, Layer::Run),
            RunFault::NoNumber => tell(13, 0, Layer::Run),
            RunFault::CopyLeft => tell(14, 0, Layer::Run),
            RunFault::NoRoom => tell(15, 0, Layer::Run),
        }
    }
}
