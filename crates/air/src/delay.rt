// How long a sensor waits before it forwards.
ghost use Rattle.std.specs.Prelude.{◌≡◌, ℕ};
ghost use Rattle.air.specs.Delays.{KeepsPeriods, slowest_period};
ghost use Rattle.std.proofs.Common.{rules};

// A delay rule: a period for tmax, an instant and a sensor.
pub trait DelayRule {
    ghost period: { Self → ℕ → ℕ → ℕ → ℕ };

    // The period, from 1 to tmax, where tmax is at least 1.
    fn period(&self, tmax: u8, instant: u32, sensor: u8) -> u8
        ensures { result ≡ period self.now tmax instant sensor };

    ghost keeps: { (rule : Self) → KeepsPeriods (period rule) };
}

// A rule that is lent is the same rule.
impl<D: DelayRule> DelayRule for &D {
    ghost period = { λ s. D.DelayRule.period s.now };

    ghost keeps = { λ s. D.DelayRule.keeps s.now };

    fn period(&self, tmax: u8, instant: u32, sensor: u8) -> u8 {
        (**self).period(tmax, instant, sensor)
    }
}

// Every period is tmax.
#[derive(Clone, Copy, PartialEq, Eq, Debug)]
pub struct Slowest;

impl DelayRule for Slowest {
    ghost period = { λ _. slowest_period };

    ghost keeps = { Prim.search rules };

    fn period(&self, tmax: u8, _instant: u32, _sensor: u8) -> u8 {
        tmax
    }
}
