// Linear: numbers of 32 bits that only rise, and end.
ghost use Rattle.numbering.specs.Four.{linear, linear_patience, linear_catch_up};
ghost use Rattle.std.proofs.Common.{rules};
ghost use Rattle.numbering.specs.LinearSettles.{linear_settles};

use crate::numbering::{Numbering, Settling};

#[derive(Clone, Copy, PartialEq, Eq, Debug)]
pub struct Linear;

impl Numbering for Linear {
    type Number = u32;

    ghost meaning = { λ _. linear };

    ghost follows = { Prim.search rules };

    ghost among = { Prim.search rules };

    fn lawful(&self, _number: u32) -> bool {
        true
    }

    fn next(&self, number: u32) -> Option<u32> {
        number.checked_add(1)
    }

    fn fresh(&self, copy: u32, held: u32) -> bool {
        copy > held
    }
}

impl Settling for Linear {
    ghost patience = { λ _. linear_patience };

    ghost catchup = { λ _. linear_catch_up };

    ghost settles = { λ m. linear_settles };

    fn figures(&self, held: u32, base: u32) -> (u64, u64) {
        let ahead = held.saturating_sub(base).saturating_sub(1);
        (255, u64::from(ahead) + 255)
    }
}
