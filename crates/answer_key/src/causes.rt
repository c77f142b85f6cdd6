// What the refusal of a key says is wrong.
ghost use Rattle.std.specs.Prelude.{◌≡◌};
ghost use Rattle.answer_key.specs.Causes.{run_cause};
ghost use Rattle.answer_key.specs.Keys.{refusal_at, refusal_in_file};

use crate::lines::KeyRefusal;
use refusal::{FieldFault, RunFault};

/// What is wrong, in words. Its definition is `run_cause`.
pub fn cause(fault: RunFault) -> &'static str
    ensures { result.now ≡ run_cause fault }
{
    match fault {
        RunFault::Field(fault) => fault.cause(),
        RunFault::ShortBuffer => "a buffer is shorter than the field",
        RunFault::LastInstant => "instant 4,294,967,295 has been opened already",
        RunFault::NoNumber => "the base is to send, but no number comes behind its own",
        RunFault::CopyLeft => "a copy is left",
        RunFault::NoRoom => "the output does not fit",
    }
}

impl KeyRefusal {
    /// The refusal of a file that is no field: the record is the one at which its fault lies.
    pub fn of_file(fault: FieldFault) -> KeyRefusal
        ensures { result ≡ refusal_in_file fault }
    {
        let told = fault.told();
        KeyRefusal {
            number: told.number,
            index: told.place,
        }
    }

    /// The refusal of a run, at the act of the record with this index.
    pub fn of_run(fault: RunFault, index: usize) -> KeyRefusal
        ensures { result ≡ refusal_at fault index }
    {
        KeyRefusal {
            number: fault.told().number,
            index,
        }
    }
}
