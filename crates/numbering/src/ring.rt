// The numbers 0 to smax in a ring: what circular and differentiated share.
ghost use Rattle.std.specs.Prelude.{◌≡◌, ◌+◌, ◌%◌, ◌<◌, ◌≤◌, MatchOption, nat_le};
ghost use Rattle.numbering.specs.Four.{distance, half};

#[derive(Clone, Copy)]
pub struct Ring {
    smax: u8,
    ghost least: { 2 ≤ smax },
    ghost most: { smax ≤ 255 },
}

impl Ring {
    // None exactly where smax is below 2.
    pub fn new(smax: u8) -> Option<Ring>
        ensures { MatchOption result (smax < 2) (λ ring. ring.smax ≡ smax) }
    {
        if smax < 2 { None } else { Some(Ring { smax }) }
    }

    pub fn smax(self) -> u8
        ensures { result ≡ self.smax }
    {
        self.smax
    }

    // How many numbers there are.
    fn count(self) -> u16
        ensures { result ≡ self.smax + 1 }
    {
        u16::from(self.smax) + 1
    }

    pub fn has(self, number: u8) -> bool
        ensures { result ≡ nat_le number self.smax }
    {
        number <= self.smax
    }

    pub fn next(self, number: u8) -> u8
        ensures { result ≡ (number + 1) % (self.smax + 1) }
    {
        ((u16::from(number) + 1) % self.count()) as u8
    }

    // How many steps lead from `held` to `copy`.
    pub fn distance(self, copy: u8, held: u8) -> u16
        ensures { result ≡ distance self.smax copy held }
    {
        let count = self.count();
        (u16::from(copy) + (count - u16::from(held) % count)) % count
    }

    // Half of smax, rounded down.
    pub fn half(self) -> u8
        ensures { result ≡ half self.smax }
    {
        self.smax / 2
    }
}
