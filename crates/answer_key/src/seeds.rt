// What the seed of a field chooses.
ghost use Rattle.std.specs.Prelude.{◌≡◌};
ghost use Rattle.air.specs.Airs.{collisions_carry, losses_carry};
ghost use Rattle.air.specs.Draws.{drawn_carries};
ghost use Rattle.answer_key.specs.Seeds.{key_carries, seeded_keeps, seeded_period};

use air::{Collisions, DelayRule, Drawn, Losses, Slowest};
use field::Loss;

/// The delay rule of a seed: the slowest for seed 0, and for any other the periods that it draws. Its definition is `seeded_period`.
#[derive(Clone, Copy, PartialEq, Eq, Debug)]
pub struct Seeded {
    pub seed: u32,
}

impl DelayRule for Seeded {
    ghost period = { λ rule. seeded_period rule.seed };

    ghost keeps = { λ rule. seeded_keeps rule.seed };

    #[tactic(auto, unfolding(crate::specs::Seeds::seeded_period))]
    fn period(&self, tmax: u8, instant: u32, sensor: u8) -> u8 {
        if self.seed == 0 {
            return Slowest.period(tmax, instant, sensor);
        }
        let drawn = Drawn { seed: self.seed };
        drawn.period(tmax, instant, sensor)
    }
}

/// The air of the key: collisions over the listed losses, over what the seed draws. Its definition is `key_carries`.
pub fn key_air(seed: u32, losses: &[Loss]) -> Collisions<Losses<'_, Drawn>>
    ensures { let below = result.below in collisions_carry (losses_carry below.listed.now (λ instant link links senders. drawn_carries below.below.seed instant link)) ≡ key_carries seed losses.now }
{
    let drawn = Drawn { seed };
    Collisions {
        below: Losses {
            listed: losses,
            below: drawn,
        },
    }
}
