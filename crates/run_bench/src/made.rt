// Two fields of 200 sensors and 1,024 links, made here: a grid with some four copies an instant, and the same one
// with floods so seldom that hardly any instant has a copy.

use crate::playing::{Parts, play};
use answer_key::Failure;
use field::{Link, Row, Rules, Settings};
use numbering::Differentiated;
use refusal::FieldFault;
use std::alloc::{AllocError, Global};

const WIDTH: u8 = 20;

const SENSORS: u8 = 200;

const LINKS: usize = 1024;

// In a grid of 10 rows each sensor hears the ones beside, above and below it, and two of those across.
fn is_near(from: u8, to: u8) -> bool {
    let columns = (from % WIDTH).abs_diff(to % WIDTH);
    columns <= 1 && matches!(from.abs_diff(to), 1 | 20 | 21)
}

// In the order of their senders, with labels from 60 to 100; the last few are left out.
fn links(heap: Global) -> Result<Vec<Link>, AllocError> {
    let mut links = Vec::new(heap);
    for from in 0..SENSORS {
        for to in 1..SENSORS {
            if links.len() < LINKS && is_near(from, to) {
                let label = 60 + (from ^ to) % 41;
                links
                    .push(Link { from, to, label })
                    .map_err(AllocError::from)?;
            }
        }
    }
    Ok(links)
}

// Timers from 1 to the longest period, in turn.
fn rows(heap: Global, tmax: u8) -> Result<Vec<Row<u8>>, AllocError> {
    (0..SENSORS)
        .map(|sensor| Row {
            timer: 1 + u16::from(sensor.checked_rem(tmax).unwrap_or(0)),
            held: 0,
            mark: None,
            outgoing: None,
        })
        .collect(heap)
}

fn play_made(
    rt: &HostRuntime,
    settings: Settings,
    instants: u32,
    timed: bool,
) -> Result<(), Failure> {
    let numbering = Differentiated::new(7).ok_or(FieldFault::BadSetting)?;
    let links = links(rt.alloc())?;
    let mut rows = rows(rt.alloc(), settings.tmax)?;
    let rules = Rules {
        numbering: &numbering,
        settings,
    };
    let mut parts = Parts {
        links: &links,
        losses: &[],
        rows: &mut rows,
    };
    play(rt, rules, &mut parts, instants, timed)
}

pub fn play_grid(rt: &HostRuntime, instants: u32, timed: bool) -> Result<(), Failure> {
    play_made(rt, Settings::new(SENSORS, 15, 10, 151, 1)?, instants, timed)
}

pub fn play_sparse(rt: &HostRuntime, instants: u32, timed: bool) -> Result<(), Failure> {
    play_made(
        rt,
        Settings::new(SENSORS, 15, 60, 65_535, 1)?,
        instants,
        timed,
    )
}
