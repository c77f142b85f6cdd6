// What a numbering is in a file: its code and its smax.
ghost use Rattle.std.specs.Prelude.{◌≡◌, ℕ, true};
ghost use Rattle.filed.specs.Codes.{code_keeps, lawful_value};
ghost use Rattle.filed.specs.Values.{lawful_of};
ghost use Rattle.std.proofs.Common.{rules};

use numbering::{Circular, Differentiated, Free, Linear, Numbering};

// What stands in a file for a numbering without an smax.
const NO_SMAX: u8 = 0;

// A numbering with a code and an smax for files. A numbering of a college's own need not have them;
// where it has, the code is one of the four, the smax goes with it, and the lawful numbers are theirs,
// so that what is written under it loads. The four impls differ by what they say.
pub trait Filed: Numbering {
    ghost coded: { Self → ℕ };

    ghost top: { Self → ℕ };

    // 0 to 3: free, linear, circular, differentiated.
    fn code(&self) -> u8
        ensures { result ≡ coded self.now };

    // The largest number of circular and differentiated, and 0 for the others.
    fn smax(&self) -> u8
        ensures { result ≡ top self.now };

    ghost keeps: { (m : Self) → code_keeps (coded m) (top m) ≡ true };

    ghost values: { (m : Self) (v : ℕ) → lawful_value (coded m) (top m) v ≡ lawful_of (Self.Numbering.meaning m) Self.Number.NumberKind.of v };
}

impl Filed for Free {
    ghost coded = { λ _. 0 };

    ghost top = { λ _. 0 };

    ghost keeps = { Prim.search rules };

    ghost values = { Prim.search rules };

    fn code(&self) -> u8 {
        0
    }

    fn smax(&self) -> u8 {
        NO_SMAX
    }
}

impl Filed for Linear {
    ghost coded = { λ _. 1 };

    ghost top = { λ _. 0 };

    ghost keeps = { Prim.search rules };

    ghost values = { Prim.search rules };

    fn code(&self) -> u8 {
        1
    }

    fn smax(&self) -> u8 {
        NO_SMAX
    }
}

impl Filed for Circular {
    ghost coded = { λ _. 2 };

    ghost top = { λ c. c.ring.smax };

    ghost keeps = { Prim.search rules };

    ghost values = { Prim.search rules };

    fn code(&self) -> u8 {
        2
    }

    fn smax(&self) -> u8 {
        Circular::smax(self)
    }
}

impl Filed for Differentiated {
    ghost coded = { λ _. 3 };

    ghost top = { λ d. d.ring.smax };

    ghost keeps = { Prim.search rules };

    ghost values = { Prim.search rules };

    fn code(&self) -> u8 {
        3
    }

    fn smax(&self) -> u8 {
        Differentiated::smax(self)
    }
}
