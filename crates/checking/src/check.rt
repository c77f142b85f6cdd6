// Each case looked for everywhere before the next.
ghost use Rattle.std.specs.Prelude.{◌≡◌};
ghost use Rattle.checking.specs.Cases.{record_places, record_at, record_fault, record_case, records_checked, field_places, field_at, field_fault, field_case, fields_checked, file_checked};

use crate::cases::{FieldCase, RecordCase};
use crate::field_places::{
    bad_link, bad_row, bad_setting, no_link, no_sensor, out_of_order, too_many,
};
use crate::record_places::{bad_length, not_zero, unknown_kind};
use records::{Record, record_count};
use refusal::{FieldFault, RecordFault};
use search::{Case, pass};

// A case of the records. A type for each case would have all the members of `Case` each time: here they
// match on the case.
#[derive(Drop)]
struct OfRecords<'a> {
    file: &'a [u8],
    case: RecordCase,
}

impl Case for OfRecords<'_> {
    type Fault = RecordFault;

    ghost count = { λ s. record_places s.file.now s.case };

    ghost at = { λ s. record_at s.file.now s.case };

    ghost told = { λ s. record_fault s.case };

    fn places(&self) -> usize {
        match self.case {
            RecordCase::Length => 1,
            RecordCase::Kind | RecordCase::Zero => record_count(self.file),
        }
    }

    fn holds(&self, place: usize) -> bool {
        let file = self.file;
        let here = Record { file, place };
        match self.case {
            RecordCase::Length => bad_length(file),
            RecordCase::Kind => unknown_kind(here),
            RecordCase::Zero => not_zero(here),
        }
    }

    fn fault(&self, place: usize) -> RecordFault {
        match self.case {
            RecordCase::Length => RecordFault::BadLength,
            RecordCase::Kind => RecordFault::UnknownKind(place),
            RecordCase::Zero => RecordFault::NotZero(place),
        }
    }
}

// Each list of cases has its own, since each is of another type.
#[tactic(auto, unfolding(crate::specs::Cases::record_case))]
fn pass_record(file: &[u8], case: RecordCase) -> Result<(), RecordFault>
    ensures { result ≡ record_case file.now case }
{
    pass(&OfRecords { file, case })
}

// The file as a row of records.
pub fn check_records(file: &[u8]) -> Result<(), RecordFault>
    ensures { result ≡ records_checked file.now }
{
    pass_record(file, RecordCase::Length)?;
    pass_record(file, RecordCase::Kind)?;
    pass_record(file, RecordCase::Zero)
}

// A case of the field, likewise.
#[derive(Drop)]
struct OfField<'a> {
    file: &'a [u8],
    case: FieldCase,
}

impl Case for OfField<'_> {
    type Fault = FieldFault;

    ghost count = { λ s. field_places s.file.now s.case };

    ghost at = { λ s. field_at s.file.now s.case };

    ghost told = { λ s. field_fault s.case };

    fn places(&self) -> usize {
        match self.case {
            FieldCase::Order => record_count(self.file) + 1,
            FieldCase::Setting => 1,
            _ => record_count(self.file),
        }
    }

    fn holds(&self, place: usize) -> bool {
        let file = self.file;
        let here = Record { file, place };
        match self.case {
            FieldCase::Order => out_of_order(here),
            FieldCase::Setting => bad_setting(file),
            FieldCase::Ends => no_sensor(here),
            FieldCase::Links => bad_link(here),
            FieldCase::Count => too_many(here),
            FieldCase::Rows => bad_row(here),
            FieldCase::Losses => no_link(here),
        }
    }

    fn fault(&self, place: usize) -> FieldFault {
        match self.case {
            FieldCase::Order => FieldFault::OutOfOrder(place),
            FieldCase::Setting => FieldFault::BadSetting,
            FieldCase::Ends => FieldFault::NoSensor(place),
            FieldCase::Links => FieldFault::BadLink(place),
            FieldCase::Count => FieldFault::TooMany(place),
            FieldCase::Rows => FieldFault::BadRow(place),
            FieldCase::Losses => FieldFault::NoLink(place),
        }
    }
}

#[tactic(auto, unfolding(crate::specs::Cases::field_case))]
fn pass_field(file: &[u8], case: FieldCase) -> Result<(), FieldFault>
    ensures { result ≡ field_case file.now case }
{
    pass(&OfField { file, case })
}

fn check_fields(file: &[u8]) -> Result<(), FieldFault>
    ensures { result ≡ fields_checked file.now }
{
    pass_field(file, FieldCase::Order)?;
    pass_field(file, FieldCase::Setting)?;
    pass_field(file, FieldCase::Ends)?;
    pass_field(file, FieldCase::Links)?;
    pass_field(file, FieldCase::Count)?;
    pass_field(file, FieldCase::Rows)?;
    pass_field(file, FieldCase::Losses)
}

// Whether the file is a field: nothing, or the first case that holds, at its lowest place.
pub fn check_file(file: &[u8]) -> Result<(), FieldFault>
    ensures { result ≡ file_checked file.now }
{
    check_records(file)?;
    check_fields(file)
}
