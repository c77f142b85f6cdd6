// What a sensor makes of the floods that it hears, one after another.
#![tactic(auto)]

ghost use Rattle.std.specs.Prelude.{◌≡◌, IfOk};
ghost use Rattle.std.specs.Iterator.{YieldsFirst, item_count};
ghost use Rattle.hearing.specs.Forecasts.{foretold};
ghost use Rattle.hearing.specs.Written.{verdict_word};
ghost use Rattle.hearing.specs.Hearing.{heard, hearing, Settled};
ghost use Rattle.numbering.specs.Meaning.{Lawful};

use numbering::{Numbering, Settling};

#[derive(Clone, Copy, PartialEq, Eq, Debug)]
pub enum Verdict {
    Accepted,
    Refused,
}

impl Verdict {
    pub fn word(self) -> &'static str
        ensures { result.now ≡ verdict_word self }
    {
        match self {
            Verdict::Accepted => "accepted",
            Verdict::Refused => "refused",
        }
    }
}

// A flood as a sensor hears it: its number, the verdict, and the number held after.
#[derive(Clone, Copy, PartialEq, Eq, Debug)]
pub struct Heard<Number> {
    pub number: Number,
    pub verdict: Verdict,
    pub held: Number,
}

// What a sensor that holds `held` makes of a flood.
pub fn hear<N: Numbering>(numbering: &N, held: N::Number, number: N::Number) -> Heard<N::Number>
    ensures { result ≡ heard (N.Numbering.meaning numbering.now) held number }
{
    let (verdict, held) = if numbering.fresh(number, held) {
        (Verdict::Accepted, number)
    } else {
        (Verdict::Refused, held)
    };
    Heard {
        number,
        verdict,
        held,
    }
}

// The floods of a base, as a sensor hears them, one after another.
#[derive(Drop)]
pub struct Floods<'n, N: Numbering> {
    numbering: &'n N,
    held: N::Number,
    base: N::Number,
    left: u64,
}

// The first floods of a base that holds `base`, at most `most` and as far as numbers follow, each heard by a
// sensor that holds `held`.
pub fn hear_floods<N: Numbering>(
    numbering: &N,
    held: N::Number,
    base: N::Number,
    most: u64,
) -> Floods<'_, N>
    ensures { hearing (N.Numbering.meaning result.numbering.now) result.left result.held result.base ≡ hearing (N.Numbering.meaning numbering.now) most held base }
{
    Floods {
        numbering,
        held,
        base,
        left: most,
    }
}

impl<N: Numbering> Iterator for Floods<'_, N> {
    type Item = Heard<N::Number>;

    ghost next_gives = { YieldsFirst (λ s. hearing (N.Numbering.meaning s.numbering.now) s.left s.held s.base) };

    ghost remaining = { item_count (λ s. hearing (N.Numbering.meaning s.numbering.now) s.left s.held s.base) };

    fn next(&mut self) -> Option<Heard<N::Number>> {
        self.left = self.left.checked_sub(1)?;
        let number = self.numbering.next(self.base)?;
        let flood = hear(self.numbering, self.held, number);
        self.held = flood.held;
        self.base = number;
        Some(flood)
    }
}

// What a settling numbering promises a sensor.
#[derive(Clone, Copy, PartialEq, Eq, Debug)]
pub struct Forecast {
    pub patience: u64,
    pub catch_up: u64,
}

// Why there is no forecast.
#[derive(Clone, Copy, PartialEq, Eq, Debug)]
pub enum Fault {
    HeldUnlawful,
    BaseUnlawful,
}

// The theorem that a sensor which hears every flood has settled by the catch-up count.
fn settled<N: Settling>(numbering: &N, held: N::Number, base: N::Number)
    ensures { Lawful (N.Numbering.meaning numbering.now) held → Lawful (N.Numbering.meaning numbering.now) base → Settled (N.Numbering.meaning numbering.now) held base (N.Settling.catchup numbering.now held base) }
{}

// Patience and catch-up count of a sensor that holds `held` under a base that holds `base`; and from the
// catch-up count on, a sensor that hears every flood has settled.
pub fn foretell<N: Settling>(
    numbering: &N,
    held: N::Number,
    base: N::Number,
) -> Result<Forecast, Fault>
    ensures value { result ≡ foretold (N.Numbering.meaning numbering.now) (N.Settling.patience numbering.now) (N.Settling.catchup numbering.now) held base }
    ensures settled { IfOk result (λ f. Settled (N.Numbering.meaning numbering.now) held base f.catch_up) }
{
    if !numbering.lawful(held) {
        return Err(Fault::HeldUnlawful);
    }
    if !numbering.lawful(base) {
        return Err(Fault::BaseUnlawful);
    }
    settled(numbering, held, base);
    let (patience, catch_up) = numbering.bound(held, base);
    Ok(Forecast { patience, catch_up })
}
