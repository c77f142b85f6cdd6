// Why there is no answer.
ghost use Rattle.std.specs.Prelude.{◌≡◌, Some};
ghost use Rattle.inquiry.specs.Complaints.{of_fault, complaint_text};

use hearing::Fault;
use std::fmt;

#[derive(Clone, Copy, PartialEq, Eq, Debug)]
pub enum Complaint {
    Words,
    Numbering,
    Smax,
    Held,
    Base,
}

impl From<Fault> for Complaint {
    ghost from_gives = { λ fault r. r ≡ of_fault fault };

    fn from(fault: Fault) -> Complaint {
        match fault {
            Fault::HeldUnlawful => Complaint::Held,
            Fault::BaseUnlawful => Complaint::Base,
        }
    }
}

impl Complaint {
    // The sentence by itself: what `Display` writes may fail.
    pub fn text(self) -> &'static str
        ensures { result.now ≡ complaint_text self }
    {
        match self {
            Complaint::Words => "too few words, or too many",
            Complaint::Numbering =>
                "no such numbering: it is free, linear, circular or differentiated",
            Complaint::Smax => "SMAX is not a number from 2 to 255",
            Complaint::Held => "HELD is not a lawful number of the numbering",
            Complaint::Base => "BASE is not a lawful number of the numbering",
        }
    }
}

impl fmt::Display for Complaint {
    ghost output = { λ c. Some (complaint_text c) };

    fn fmt<W: fmt::Write>(&self, f: &mut fmt::Formatter<W>) -> fmt::Result {
        f.write_str(self.text())
    }
}
