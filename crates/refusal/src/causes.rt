// What the refusal of a file says is wrong.
ghost use Rattle.std.specs.Prelude.{◌≡◌, Some};
ghost use Rattle.refusal.specs.Causes.{record_cause, cause};

use crate::{FieldFault, RecordFault};
use std::error::Error;
use std::fmt;

// The sentences by themselves: what `Display` writes may fail.
impl RecordFault {
    pub fn cause(self) -> &'static str
        ensures { result.now ≡ record_cause self }
    {
        match self {
            RecordFault::BadLength => "the file is longer than 48,000 bytes or no multiple of 12",
            RecordFault::UnknownKind(_) => "its kind is none of F, S, L, X and P",
            RecordFault::NotZero(_) => "a byte that must be zero is not",
        }
    }
}

impl FieldFault {
    pub fn cause(self) -> &'static str
        ensures { result.now ≡ cause self }
    {
        match self {
            FieldFault::Record(fault) => fault.cause(),
            FieldFault::OutOfOrder(_) => "a record is missing here, or stands out of order",
            FieldFault::BadSetting =>
                "a setting, the numbering's code or its smax breaks its limit",
            FieldFault::NoSensor(_) => "there is no such sensor",
            FieldFault::BadLink(_) =>
                "the link has equal ends, goes into sensor 0, has a label above 100, or repeats an earlier one",
            FieldFault::TooMany(_) => "there are over 1,024 links or 256 losses",
            FieldFault::BadRow(_) => "the timer, the mark or the number breaks its limit",
            FieldFault::NoLink(_) => "the loss names a pair without a link",
        }
    }
}

impl fmt::Display for RecordFault {
    ghost output = { λ fault. Some (record_cause fault) };

    fn fmt<W: fmt::Write>(&self, f: &mut fmt::Formatter<W>) -> fmt::Result {
        f.write_str(RecordFault::cause(*self))
    }
}

impl fmt::Display for FieldFault {
    ghost output = { λ fault. Some (cause fault) };

    fn fmt<W: fmt::Write>(&self, f: &mut fmt::Formatter<W>) -> fmt::Result {
        f.write_str(FieldFault::cause(*self))
    }
}

impl Error for RecordFault {}

impl Error for FieldFault {}
