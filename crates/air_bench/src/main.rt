// Asks the air of the key, over 1,024 links, of each of them, so many times over; how long that takes is for
// whoever runs it to measure. With a second word nobody sends and every label is 0, so that every question goes
// over all the links.
#![tactic(auto)]

use air::{Air, Collisions, Drawn, Losses};
use field::{Link, Loss};
use std::alloc::{AllocError, Global};
use std::{env, io};

const SENSORS: u8 = 200;

// Links that go round, each from its sensor to another.
fn links(heap: Global, whole: bool) -> Result<Vec<Link>, AllocError> {
    (0..1024u16)
        .map(|place| Link {
            from: (place % 200) as u8,
            to: (1 + (place / 200 + place) % 199) as u8,
            label: if whole { 0 } else { (place % 101) as u8 },
        })
        .collect(heap)
}

fn losses(heap: Global) -> Result<Vec<Loss>, AllocError> {
    (0..=255u8)
        .map(|place| Loss {
            from: place % SENSORS,
            to: 1,
            instant: u32::from(place),
        })
        .collect(heap)
}

// Every fifth sensor sends.
fn senders(heap: Global, whole: bool) -> Result<Vec<u8>, AllocError> {
    (0..SENSORS)
        .map(|sensor| { if sensor % 5 == 0 && !whole { 1 } else { 0 } })
        .collect(heap)
}

fn rounds_in(words: &[String]) -> u32 {
    words
        .first()
        .and_then(|word| word.as_str().parse::<u32>().ok())
        .unwrap_or(1)
}

fn main(rt: HostRuntime) -> io::Result<()> {
    let words: Vec<String> = env::args(&rt)?.skip(1).collect(rt.alloc())?;
    let whole = words.len() > 1;
    let links = links(rt.alloc(), whole)?;
    let listed = losses(rt.alloc())?;
    let senders = senders(rt.alloc(), whole)?;
    let air = Collisions {
        below: Losses {
            listed: &listed,
            below: Drawn { seed: 1 },
        },
    };
    let mut carried = 0u64;
    for instant in 0..rounds_in(&words) {
        for link in links.iter() {
            if air.carries(instant, *link, &links, &senders) {
                carried = carried.saturating_add(1);
            }
        }
    }
    println!(rt; "{carried} carried")
}
