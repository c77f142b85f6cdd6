// The four numberings of files.
ghost use Rattle.std.specs.Prelude.{◌≡◌};
ghost use Rattle.filed.specs.Numberings.{Coded, code_of, smax_of};

use crate::filed::Filed;
use numbering::{Circular, Differentiated, Free, Linear};

#[derive(Clone, Copy)]
pub enum FileNumbering {
    Free(Free),
    Linear(Linear),
    Circular(Circular),
    Differentiated(Differentiated),
}

impl FileNumbering {
    // The numbering of a code and an smax, where there is one.
    pub fn new(code: u8, smax: u8) -> Option<FileNumbering>
        ensures { Coded code smax result }
    {
        match (code, smax) {
            (0, 0) => Some(FileNumbering::Free(Free)),
            (1, 0) => Some(FileNumbering::Linear(Linear)),
            (2, _) => Some(FileNumbering::Circular(Circular::new(smax)?)),
            (3, _) => Some(FileNumbering::Differentiated(Differentiated::new(smax)?)),
            _ => None,
        }
    }

    // 0 to 3: free, linear, circular, differentiated.
    pub fn code(self) -> u8
        ensures { result ≡ code_of self }
    {
        match self {
            FileNumbering::Free(numbering) => numbering.code(),
            FileNumbering::Linear(numbering) => numbering.code(),
            FileNumbering::Circular(numbering) => numbering.code(),
            FileNumbering::Differentiated(numbering) => numbering.code(),
        }
    }

    // The largest number of circular and differentiated, and 0 for the others.
    pub fn smax(self) -> u8
        ensures { result ≡ smax_of self }
    {
        match self {
            FileNumbering::Free(numbering) => numbering.smax(),
            FileNumbering::Linear(numbering) => numbering.smax(),
            FileNumbering::Circular(numbering) => Filed::smax(&numbering),
            FileNumbering::Differentiated(numbering) => Filed::smax(&numbering),
        }
    }
}
