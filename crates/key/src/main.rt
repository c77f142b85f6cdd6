// The program `key`: the answer key of a field file.
#![tactic(auto)]

mod printing;
mod words;

use crate::printing::print_key;
use crate::words::{Request, request_in};
use answer_key::Failure;
use std::fs::File;
use std::io::Read;
use std::process::ExitCode;
use std::{env, io};

const USAGE: &str = "usage: key [--counts] [FILE]

Plays a field file as its records say, and prints a line for each copy:

  INSTANT SENDER RECEIVER HOP NUMBER VERDICT

in decimal; the verdict is lost, refused, accepted or forwards. Where the file
is no field, or a play or a damage is refused, the last line is

  refusal NUMBER INDEX

with the index of the record, counted from 0; standard error then says in which
layer it is refused, at which place, and why. Nothing behind it is done.

A copy comes through where no other copy collides with it, the file lists no
loss of it, and the draw of the seed and the link's label let it. Under seed 0
every period is the longest, and under any other it is drawn.

  --counts   prints the numbers of instants, floods, copies and verdicts on
             standard error, behind the key

FILE is - or left out for standard input. A refusal, and a file that cannot be
read, end with status 1.
";

// One byte more than a field file may have: what is longer is refused whatever follows.
const MOST_READ: u64 = 48_001;

fn contents(rt: &HostRuntime, name: &str) -> io::Result<Vec<u8>> {
    let mut file = Vec::new(rt.alloc());
    if name == "-" {
        rt.stdin().take(MOST_READ).read_to_end(&mut file)?;
    } else {
        File::open(rt, name)?
            .take(MOST_READ)
            .read_to_end(&mut file)?;
    }
    Ok(file)
}

fn key(rt: &HostRuntime, name: &str, counts: bool) -> Result<ExitCode, Failure> {
    match contents(rt, name) {
        Ok(file) => print_key(rt, &file, counts),
        Err(error) => {
            eprintln!(rt; "key: {name} cannot be read: {error}")?;
            Ok(ExitCode::FAILURE)
        }
    }
}

fn run(rt: &HostRuntime, words: &[String]) -> Result<ExitCode, Failure> {
    match request_in(words) {
        Some(Request::Help) => {
            rt.print(USAGE)?;
            Ok(ExitCode::SUCCESS)
        }
        Some(Request::Key { name, counts }) => key(rt, name, counts),
        None => {
            eprintln!(rt; "key: it is called as [--counts] [FILE], or --help")?;
            Ok(ExitCode::FAILURE)
        }
    }
}

fn main(rt: HostRuntime) -> io::Result<ExitCode> {
    let words: Vec<String> = env::args(&rt)?.skip(1).collect(rt.alloc())?;
    match run(&rt, &words) {
        Ok(status) => Ok(status),
        Err(Failure::Declined(fault)) => {
            eprintln!(rt; "key: {}", answer_key::cause(fault))?;
            Ok(ExitCode::FAILURE)
        }
        // Whoever reads has had enough.
        Err(Failure::Io(error)) if error.kind() == io::ErrorKind::BrokenPipe => Ok(
            ExitCode::SUCCESS,
        ),
        Err(Failure::Io(error)) => {
            eprintln!(rt; "key: {error}")?;
            Ok(ExitCode::FAILURE)
        }
    }
}
