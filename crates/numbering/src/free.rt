// Free: every copy passes for new, so nothing settles.
ghost use Rattle.numbering.specs.Four.{free};
ghost use Rattle.std.proofs.Common.{rules};

use crate::kind::Zero;
use crate::numbering::Numbering;

#[derive(Clone, Copy, PartialEq, Eq, Debug)]
pub struct Free;

impl Numbering for Free {
    type Number = Zero;

    ghost meaning = { λ _. free };

    ghost follows = { Prim.search rules };

    ghost among = { Prim.search rules };

    fn lawful(&self, _number: Zero) -> bool {
        true // it is the only one
    }

    fn next(&self, number: Zero) -> Option<Zero> {
        Some(number)
    }

    fn fresh(&self, _copy: Zero, _held: Zero) -> bool {
        true // whatever is held
    }
}
