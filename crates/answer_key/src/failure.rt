// Why a program that plays fields ends early.
ghost use Rattle.std.specs.Prelude.{◌≡◌};
ghost use Rattle.answer_key.specs.Failures.{IsIo};
ghost use Rattle.answer_key.specs.declared.failure.Failure.TheVariants.{Declined as Fails, Io};
ghost use Rattle.refusal.specs.declared.RunFault.TheVariants.{Field};

use refusal::{FieldFault, RunFault};
use run::Declined;
use std::alloc::AllocError;
use std::io;

/// A call declined, or reading, writing or memory failed.
#[derive(Debug, Drop)]
pub enum Failure {
    Declined(RunFault),
    Io(io::Error),
}

impl From<RunFault> for Failure {
    ghost from_gives = { λ fault r. r ≡ Fails fault };

    fn from(fault: RunFault) -> Failure {
        Failure::Declined(fault)
    }
}

impl From<FieldFault> for Failure {
    ghost from_gives = { λ fault r. r ≡ Fails (Field fault) };

    fn from(fault: FieldFault) -> Failure {
        Failure::Declined(RunFault::from(fault))
    }
}

// Who does not go on with the run lets it go.
impl<Run: Drop> From<Declined<Run>> for Failure {
    ghost from_gives = { λ declined r. r ≡ Fails declined.fault };

    fn from(declined: Declined<Run>) -> Failure {
        Failure::Declined(declined.fault)
    }
}

impl From<io::Error> for Failure {
    ghost from_gives = { λ error r. r ≡ Io error };

    fn from(error: io::Error) -> Failure {
        Failure::Io(error)
    }
}

impl From<AllocError> for Failure {
    ghost from_gives = { λ error r. IsIo r };

    fn from(error: AllocError) -> Failure {
        Failure::Io(io::Error::from(error))
    }
}
