// Numbers that a seed draws.
ghost use Rattle.std.specs.Prelude.{◌≡◌};
ghost use Rattle.air.specs.Draws.{mixed, draw, drawn_period, percent, drawn_carries};
ghost use Rattle.air.specs.Falls.{falls_within};

use crate::air::Air;
use crate::delay::DelayRule;
use field::Link;

// One number mixed into what was drawn so far.
fn mixed(x: u32, number: u32) -> u32
    ensures { result ≡ mixed x number }
{
    (x ^ number)
        .wrapping_mul(1_664_525)
        .wrapping_add(1_013_904_223)
}

// The number that a seed draws for three numbers, below 65,536.
#[tactic(auto, unfolding(crate::specs::Draws::draw))]
pub fn draw(seed: u32, first: u32, second: u32, third: u32) -> u32
    ensures { result ≡ draw seed first second third }
{
    mixed(mixed(mixed(seed, first), second), third) / 65_536
}

// Drawn by a seed: periods, and which copies are carried.
#[derive(Clone, Copy, PartialEq, Eq, Debug)]
pub struct Drawn {
    pub seed: u32,
}

// At a tmax of 0, where no period can lie, it is 0.
impl DelayRule for Drawn {
    ghost period = { λ d. drawn_period d.seed };

    ghost keeps = { λ d. falls_within (λ instant sensor. draw d.seed instant sensor 0) };

    fn period(&self, tmax: u8, instant: u32, sensor: u8) -> u8 {
        if tmax == 0 {
            return 0;
        }
        let number = draw(self.seed, instant, u32::from(sensor), 0);
        1 + (number % u32::from(tmax)) as u8
    }
}

// The percentage that a label stands for.
fn percent(label: u8) -> u32
    ensures { result ≡ percent label }
{
    if label == 0 { 100 } else { u32::from(label) }
}

impl Air for Drawn {
    ghost carries = { λ d instant link links senders. drawn_carries d.seed instant link };

    fn carries(&self, instant: u32, link: Link, _links: &[Link], _senders: &[u8]) -> bool {
        let number = draw(self.seed, instant, u32::from(link.from), u32::from(link.to));
        number % 100 < percent(link.label)
    }
}
