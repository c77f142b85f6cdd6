// The worked field: three sensors, of which 1 and 2 hear each other, and 1 hears the base.

use crate::calls::play_by_calls;
use crate::in_order::play_in_order;
use crate::telling;
use crate::writing_back::write_back;
use air::{Collisions, Drawn, Losses, Slowest};
use answer_key::Failure;
use field::{Damage, Link, Row, Settings};
use numbering::Differentiated;
use refusal::FieldFault;
use run::Lent;
use std::alloc::{AllocError, Global};
use storm::{Staggered, Storm};
use windowed::{Serial, Windowed};

const TIMERS: [u16; 3] = [1, 2, 1];

// A field file has a record of 12 bytes for the settings, each row and each link.
const FILE_SIZE: usize = 12 * (1 + 3 + 3);

const LINKS: [Link; 3] = [
    Link {
        from: 0,
        to: 1,
        label: 100,
    },
    Link {
        from: 1,
        to: 2,
        label: 100,
    },
    Link {
        from: 2,
        to: 1,
        label: 100,
    },
];

fn settings() -> Result<Settings, FieldFault> {
    Settings::new(3, 2, 2, 5, 0)
}

// A row for each sensor, unmarked, with these numbers.
fn rows<K: Copy>(heap: Global, numbers: &[K]) -> Result<Vec<Row<K>>, AllocError> {
    TIMERS
        .iter()
        .zip(numbers)
        .map(|(timer, held)| Row {
            timer: *timer,
            held: *held,
            mark: None,
            outgoing: None,
        })
        .collect(heap)
}

// Under what the field has.
pub fn play_worked(rt: &HostRuntime) -> Result<(), Failure> {
    println!(rt; "The worked field")?;
    let numbering = Differentiated::new(2).ok_or(FieldFault::BadSetting)?;
    let mut rows = rows(rt.alloc(), &[0, 1, 0])?;
    let mut senders = vec![in rt.alloc(); 0u8; rows.len()]?;
    let air = Collisions {
        below: Losses {
            listed: &[],
            below: Drawn { seed: 0 },
        },
    };
    let mut lent = Lent {
        numbering: &numbering,
        delay: &Slowest,
        air: &air,
        links: &LINKS,
        rows: &mut rows,
        senders: &mut senders,
    };
    let settings = settings()?;
    let run = play_by_calls(rt, settings, &mut lent)?;
    write_back(rt, &run, settings, &lent)?;
    telling::finished(rt, run.finish(&lent)?)?;
    Ok(())
}

// Under a numbering, a delay rule and an air that were made outside.
pub fn play_outside(rt: &HostRuntime) -> Result<(), Failure> {
    println!(rt; "The worked field under parts made outside")?;
    let numbering = Windowed::new(2).ok_or(FieldFault::BadSetting)?;
    let mut rows = rows(rt.alloc(), &[0, 1, 0].map(|value: u16| Serial { value }))?;
    let mut senders = vec![in rt.alloc(); 0u8; rows.len()]?;
    let air = Storm {
        first: 5,
        last: 7,
        below: Collisions {
            below: Drawn { seed: 0 },
        },
    };
    let mut lent = Lent {
        numbering: &numbering,
        delay: &Staggered,
        air: &air,
        links: &LINKS,
        rows: &mut rows,
        senders: &mut senders,
    };
    let run = play_by_calls(rt, settings()?, &mut lent)?;
    telling::finished(rt, run.finish(&lent)?)?;
    Ok(())
}

// Each call once.
pub fn play_once(rt: &HostRuntime) -> Result<(), Failure> {
    println!(rt; "The worked field, each call once")?;
    let numbering = Differentiated::new(2).ok_or(FieldFault::BadSetting)?;
    let mut rows = rows(rt.alloc(), &[0, 1, 0])?;
    let mut senders = vec![in rt.alloc(); 0u8; rows.len()]?;
    let mut page = vec![in rt.alloc(); 0u8; FILE_SIZE]?;
    let mut lent = Lent {
        numbering: &numbering,
        delay: &Slowest,
        air: &Drawn { seed: 0 },
        links: &LINKS,
        rows: &mut rows,
        senders: &mut senders,
    };
    let damage = Damage {
        sensor: 2,
        timer: 1,
        mark: None,
        held: 0,
    };
    let counts = play_in_order(settings()?, &mut lent, damage, &mut page)?;
    telling::finished(rt, counts)?;
    Ok(())
}
