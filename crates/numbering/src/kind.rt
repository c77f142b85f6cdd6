// What any kind of flood number can do.
ghost use Rattle.std.specs.Prelude.{◌≡◌, ℕ, ◌^◌, Bool, true, Some, Option, nat_lt};
ghost use Rattle.numbering.specs.Kinds.{below, zero_of};
ghost use Rattle.std.proofs.Common.{rules};

// A number has a value of 32 bits, for files and printing. The logic's numbers have no end, so
// `among` says which of them the kind holds; no clause of `From` and `TryFrom` could.
pub trait NumberKind: Copy {
    ghost among: { Self → Bool };

    ghost worth: { Self → ℕ };

    ghost of: { ℕ → Option Self };

    fn value(self) -> u32
        ensures value { result ≡ worth self }
        ensures within { among self ≡ true };

    fn of_value(value: u32) -> Option<Self>
        ensures { result ≡ of value };

    ghost there: { (x : Self) → among x ≡ true → of (worth x) ≡ Some x };

    ghost back: { (v : ℕ) (x : Self) → of v ≡ Some x → worth x ≡ v };
}

// The kind whose only number is 0.
#[derive(Clone, Copy, PartialEq, Eq, Debug)]
pub struct Zero;

impl NumberKind for Zero {
    ghost among = { λ _. true };

    ghost worth = { λ _. 0 };

    ghost of = { zero_of };

    ghost there = { Prim.search rules };

    ghost back = { Prim.search rules };

    fn value(self) -> u32 {
        0
    }

    fn of_value(value: u32) -> Option<Zero> {
        (value == 0).then_some(Zero)
    }
}

// An impl for each width: the gate refuses impls that a macro of the repository writes.
impl NumberKind for u8 {
    ghost among = { λ x. nat_lt x 256 };

    ghost worth = { λ x. x };

    ghost of = { below 256 };

    ghost there = { Prim.search rules };

    ghost back = { Prim.search rules };

    fn value(self) -> u32 {
        u32::from(self)
    }

    fn of_value(value: u32) -> Option<u8> {
        u8::try_from(value).ok()
    }
}

impl NumberKind for u32 {
    ghost among = { λ x. nat_lt x (2 ^ 32) };

    ghost worth = { λ x. x };

    ghost of = { below (2 ^ 32) };

    ghost there = { Prim.search rules };

    ghost back = { Prim.search rules };

    fn value(self) -> u32 {
        self
    }

    fn of_value(value: u32) -> Option<u32> {
        Some(value)
    }
}
