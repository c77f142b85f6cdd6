// The program `bound`: a numbering's patience and catch-up count for a sensor, flood by flood.
#![tactic(auto)]

use inquiry::{ANSWER_ROOM, Reply};
use printing::put_on;
use std::process::ExitCode;
use std::{env, io};

const USAGE: &str = "usage: bound NUMBERING [SMAX] HELD BASE

Says how soon a sensor settles that holds the number HELD and hears every flood
of a base station that holds the number BASE.

  bound free HELD BASE
  bound linear HELD BASE
  bound circular SMAX HELD BASE
  bound differentiated SMAX HELD BASE

SMAX is 2 to 255. A lawful number is 0 under free, 0 to 4294967295 under linear,
and 0 to SMAX under circular and differentiated.

The first line has the patience, which is how many floods in a row must pass a
settled sensor unheard before it may fall out of step, and the catch-up count,
which is how many floods it takes at most to settle. Then each of the first
floods has a line, up to the catch-up count and at most 512: its number, whether
the sensor accepts or refuses it, and the number that the sensor holds then.

Example: bound circular 7 6 1
";

// Why the program fails.
#[derive(Debug, Drop)]
enum Failure {
    Told,
    Io(io::Error),
}

impl From<io::Error> for Failure {
    fn from(error: io::Error) -> Failure {
        Failure::Io(error)
    }
}

fn print(rt: &HostRuntime, reply: &Reply) -> io::Result<()> {
    let mut page = vec![in rt.alloc(); 0u8; ANSWER_ROOM]?;
    let size = put_on(rt.alloc(), reply, &mut page)?;
    rt.write_all(&page[..size])
}

fn answer(rt: &HostRuntime, words: &[String]) -> Result<(), Failure> {
    match Reply::new(words) {
        Ok(reply) => Ok(print(rt, &reply)?),
        Err(complaint) => {
            eprintln!(rt; "bound: {complaint} (bound --help says how to call it)")?;
            Err(Failure::Told)
        }
    }
}

fn run(rt: &HostRuntime, words: &[String]) -> Result<(), Failure> {
    match words.first() {
        Some(word) if word.as_str() == "--help" => Ok(rt.print(USAGE)?),
        _ => answer(rt, words),
    }
}

fn main(rt: HostRuntime) -> io::Result<ExitCode> {
    let words: Vec<String> = env::args(&rt)?.skip(1).collect(rt.alloc())?;
    match run(&rt, words.as_slice()) {
        Ok(()) => Ok(ExitCode::SUCCESS),
        Err(Failure::Told) => Ok(ExitCode::FAILURE),
        Err(Failure::Io(error)) => Err(error),
    }
}

#[cfg(test)]
mod tests {
    use super::*;
    use std::test::Fail;

    // A complaint is an error, for which `main` answers status 1.
    #[test]
    fn a_wrong_word_is_an_error(rt: HostRuntime) -> Result<(), Fail> {
        let mut words = Vec::new(rt.alloc());
        words.push(String::from_str(rt.alloc(), "ring")?)?;
        assert!(rt; answer(&rt, words.as_slice()).is_err());
        Ok(())
    }
}
