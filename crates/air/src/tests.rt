// The drawn figures, and nestings of layers.
use crate::{Air, Collisions, DelayRule, Drawn, Losses, draw};
use field::{Link, Loss};
use std::test::Fail;

fn link(from: u8, to: u8, label: u8) -> Link {
    Link { from, to, label }
}

// Seed 1, link 0 to 1: the draw modulo 100 is 34 for instant 1, and 99 for instant 10.
#[test]
fn labels_carry_what_is_below_them(rt: HostRuntime) -> Result<(), Fail> {
    assert_eq!(rt; draw(1, 1, 0, 1) % 100, 34);
    assert_eq!(rt; draw(1, 10, 0, 1) % 100, 99);
    let air = Drawn { seed: 1 };
    assert!(rt; air.carries(1, link(0, 1, 35), &[], &[]));
    assert!(rt; !air.carries(1, link(0, 1, 34), &[], &[]));
    assert!(rt; air.carries(10, link(0, 1, 0), &[], &[]));
    assert!(rt; air.carries(10, link(0, 1, 100), &[], &[]));
    assert!(rt; !air.carries(10, link(0, 1, 99), &[], &[]));
    Ok(())
}

#[test]
fn periods_are_drawn_from_1_to_tmax(rt: HostRuntime) -> Result<(), Fail> {
    let rule = Drawn { seed: 1 };
    let drawn = [0, 1, 2, 3, 4, 5].map(|sensor: u8| rule.period(5, 1, sensor));
    assert_eq!(rt; drawn, [4, 5, 1, 1, 2, 3]);
    assert_eq!(rt; rule.period(0, 1, 1), 0);
    Ok(())
}

// Sensors 0 and 2 send to 1, and 0 to 3. What meets at 1 is drowned, though the copy from 2 is lost.
#[test]
fn layers_nest_either_way(rt: HostRuntime) -> Result<(), Fail> {
    let links = [link(0, 1, 100), link(2, 1, 100), link(0, 3, 100)];
    let senders = [1, 0, 1, 0];
    let lost = |from: u8, to: u8| Loss {
        from,
        to,
        instant: 7,
    };
    let first = [lost(0, 3)];
    let second = [lost(2, 1)];
    let drawn = Drawn { seed: 5 };
    let key = Collisions {
        below: Losses {
            listed: &second,
            below: Losses {
                listed: &first,
                below: &drawn,
            },
        },
    };
    let other = Losses {
        listed: &first,
        below: Losses {
            listed: &second,
            below: Collisions { below: drawn },
        },
    };
    assert!(rt; !key.carries(7, links[0], &links, &senders));
    assert!(rt; !other.carries(7, links[0], &links, &senders));
    assert!(rt; !key.carries(7, links[2], &links, &senders));
    assert!(rt; !other.carries(7, links[2], &links, &senders));
    assert!(rt; key.carries(8, links[2], &links, &senders));
    assert!(rt; other.carries(8, links[2], &links, &senders));
    Ok(())
}
