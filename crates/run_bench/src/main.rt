// Plays a field for so many instants under the air of its key, and prints what was counted. Where the field is named,
// it also prints how long an instant took, and a copy, in play alone.
#![tactic(auto)]

mod filed_field;
mod made;
mod playing;

use answer_key::Failure;
use refusal::Told;
use std::process::ExitCode;
use std::{env, fs, io};

const USAGE: &str = "usage: run_bench [FIELD INSTANTS]

Plays a field from its rows on, and prints what was counted and how long an
instant and a copy took. FIELD is grid or sparse, which are made here, or a
field file, whose acts are left out. With no words, 1,000 instants of grid are
played and no times printed.
";

// An untimed run of what is made here, so that it prints the same each time.
const INSTANTS: u32 = 1000;

fn bench(rt: &HostRuntime, name: &str, instants: u32) -> Result<(), Failure> {
    let timed = true;
    match name {
        "grid" => made::play_grid(rt, instants, timed),
        "sparse" => made::play_sparse(rt, instants, timed),
        _ => filed_field::play_file(rt, &fs::read(rt, name)?, instants),
    }
}

fn told(rt: &HostRuntime, outcome: Result<(), Failure>) -> io::Result<ExitCode> {
    match outcome {
        Ok(()) => Ok(ExitCode::SUCCESS),
        Err(Failure::Declined(fault)) => {
            let Told { number, place, .. } = fault.told();
            eprintln!(rt; "run_bench: refusal {number} at {place}")?;
            Ok(ExitCode::FAILURE)
        }
        Err(Failure::Io(error)) => Err(error),
    }
}

fn main(rt: HostRuntime) -> io::Result<ExitCode> {
    let words: Vec<String> = env::args(&rt)?.skip(1).collect(rt.alloc())?;
    match words.as_slice() {
        [] => told(&rt, made::play_grid(&rt, INSTANTS, false)),
        [name, instants] => match instants.as_str().parse::<u32>() {
            Ok(instants) => told(&rt, bench(&rt, name.as_str(), instants)),
            Err(_) => {
                eprintln!(rt; "run_bench: INSTANTS is no number")?;
                Ok(ExitCode::FAILURE)
            }
        },
        _ => {
            rt.eprint(USAGE)?;
            Ok(ExitCode::FAILURE)
        }
    }
}
