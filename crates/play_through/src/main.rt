// The program `play_through`: the worked field, played call by call.
#![tactic(auto)]

mod calls;
mod fields;
mod filed_field;
mod in_order;
mod telling;
mod writing_back;

use crate::telling::Refusal;
use answer_key::Failure;
use std::process::ExitCode;
use std::{env, io};

const USAGE: &str = "usage: play_through

Plays the worked field of three sensors by the calls of a run, and prints what
each call answers, in a line of its own:

  1. under the numbering, the delay rule and the air that the field has: begin,
     look, open, carry, close, damage, play, write and finish, and two calls
     that decline;
  2. by the same calls, under a numbering, a delay rule and an air that were
     made outside;
  3. loaded from a field file and played as the file says;
  4. by each call once.

A copy is told by its instant, sender, receiver, hop, number and verdict. A call
that declines is told by the refusal's number, place and layer.
";

fn play_all(rt: &HostRuntime) -> Result<(), Failure> {
    fields::play_worked(rt)?;
    fields::play_outside(rt)?;
    filed_field::play_file(rt, filed_field::WORKED)?;
    fields::play_once(rt)
}

fn run(rt: &HostRuntime) -> io::Result<ExitCode> {
    match play_all(rt) {
        Ok(()) => Ok(ExitCode::SUCCESS),
        Err(Failure::Declined(fault)) => {
            let refusal = Refusal(fault);
            eprintln!(rt; "play_through: {refusal}")?;
            Ok(ExitCode::FAILURE)
        }
        Err(Failure::Io(error)) => Err(error),
    }
}

fn main(rt: HostRuntime) -> io::Result<ExitCode> {
    let words: Vec<String> = env::args(&rt)?.skip(1).collect(rt.alloc())?;
    match words.as_slice() {
        [] => run(&rt),
        [word] if word.as_str() == "--help" || word.as_str() == "-h" => {
            rt.print(USAGE)?;
            Ok(ExitCode::SUCCESS)
        }
        _ => {
            eprintln!(rt; "play_through: it takes no words but --help")?;
            Ok(ExitCode::FAILURE)
        }
    }
}
