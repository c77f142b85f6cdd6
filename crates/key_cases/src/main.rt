// Makes the key of each field that standard input names, with little room and with much, and compares it with the one that is stored
// beside the field.
#![tactic(auto)]

mod keys;

use crate::keys::{Room, key_of};
use answer_key::{Failure, LOG_ROWS, LONGEST_LINE, cause};
use std::{fs, io};

// Room for one line, and for the copies of one instant; and as much as the program `key` lends.
const ROOMS: [Room; 2] = [
    Room {
        page: LONGEST_LINE,
        log: 1024,
    },
    Room {
        page: 65_536,
        log: LOG_ROWS,
    },
];

// The first byte at which two texts differ.
fn difference(made: &[u8], stored: &[u8]) -> Option<usize> {
    (0..made.len().max(stored.len())).find(|at| made.get(*at) != stored.get(*at))
}

fn compare(rt: &HostRuntime, name: &str) -> Result<(), Failure> {
    let file = fs::read(rt, format!(in rt.alloc(); "{name}.field")?)?;
    let stored = fs::read(rt, format!(in rt.alloc(); "{name}.key")?)?;
    for room in ROOMS {
        let made = key_of(rt.alloc(), &file, room)?;
        if let Some(at) = difference(&made, &stored) {
            let Room { page, log } = room;
            println!(rt;
                "{name}: differs at byte {at}, by a page of {page} bytes and a log of {log} rows"
            )?;
            return Ok(());
        }
    }
    println!(rt; "{name}: same")?;
    Ok(())
}

fn main(rt: HostRuntime) -> io::Result<()> {
    for name in rt.lines(rt.alloc()) {
        let name = name?;
        match compare(&rt, &name) {
            Ok(()) => {}
            Err(Failure::Declined(fault)) => println!(rt; "{name}: {}", cause(fault))?,
            Err(Failure::Io(error)) => return Err(error),
        }
    }
    Ok(())
}
