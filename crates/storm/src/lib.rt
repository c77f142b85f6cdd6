// An air and a delay rule made outside the crate of the published ones.
#![tactic(auto)]

ghost use Rattle.air.specs.Falls.{falls_within};
ghost use Rattle.storm.specs.Storms.{storm_carries, staggered};

use air::{Air, DelayRule};
use field::Link;

// Over any air: nothing comes through in the instants of a storm, the last one included.
#[derive(Clone, Copy, PartialEq, Eq, Debug)]
pub struct Storm<A> {
    pub first: u32,
    pub last: u32,
    pub below: A,
}

impl<A: Air> Air for Storm<A> {
    ghost carries = { λ s. storm_carries s.first s.last (A.Air.carries s.below) };

    fn carries(&self, instant: u32, link: Link, links: &[Link], senders: &[u8]) -> bool {
        let storms = self.first <= instant && instant <= self.last;
        !storms && self.below.carries(instant, link, links, senders)
    }
}

// Sensors take periods in turn, by their index.
#[derive(Clone, Copy, PartialEq, Eq, Debug)]
pub struct Staggered;

impl DelayRule for Staggered {
    ghost period = { λ _. staggered };

    ghost keeps = { λ _. falls_within (λ instant sensor. sensor) };

    fn period(&self, tmax: u8, _instant: u32, sensor: u8) -> u8 {
        sensor.checked_rem(tmax).map_or(0, |turn| 1 + turn)
    }
}

#[cfg(test)]
mod tests {
    use super::*;
    use air::{Collisions, Drawn};
    use std::test::Fail;

    // Under collisions, a storm in instants 3 and 4: a link of label 100 carries before and after.
    #[test]
    fn a_storm_passes(rt: HostRuntime) -> Result<(), Fail> {
        let link = Link {
            from: 0,
            to: 1,
            label: 100,
        };
        let air = Collisions {
            below: Storm {
                first: 3,
                last: 4,
                below: Drawn { seed: 1 },
            },
        };
        let carried = [2, 3, 4, 5].map(|instant: u32| air.carries(instant, link, &[link], &[1]));
        assert_eq!(rt; carried, [true, false, false, true]);
        Ok(())
    }

    #[test]
    fn sensors_take_turns(rt: HostRuntime) -> Result<(), Fail> {
        let periods = [0, 1, 2, 3].map(|sensor: u8| Staggered.period(3, 1, sensor));
        assert_eq!(rt; periods, [1, 2, 3, 1]);
        assert_eq!(rt; Staggered.period(0, 1, 5), 0);
        Ok(())
    }
}
