// A number kind of one's own: 16 bits.
ghost use Rattle.std.specs.Bool.{then_some};
ghost use Rattle.std.specs.Prelude.{nat_lt};
ghost use Rattle.windowed.specs.Window.{serial, fits};
ghost use Rattle.std.proofs.Common.{rules};

use numbering::NumberKind;

#[derive(Clone, Copy, PartialEq, Eq, Debug)]
pub struct Serial {
    pub value: u16,
}

impl NumberKind for Serial {
    ghost among = { fits };

    ghost worth = { λ x. x.value };

    ghost of = { λ v. then_some (nat_lt v 65536) (serial v) };

    ghost there = { Prim.search rules };

    ghost back = { Prim.search rules };

    fn value(self) -> u32 {
        u32::from(self.value)
    }

    fn of_value(value: u32) -> Option<Serial> {
        let value = u16::try_from(value).ok()?;
        Some(Serial { value })
    }
}
