// The program `field_tool`: a field file as a listing, for an author before a sitting.
#![tactic(auto)]

mod make;

use crate::make::make;
use checking::check_file;
use listing::Listing;
use printing::put_on;
use refusal::{FieldFault, Told};
use std::io::Read;
use std::process::ExitCode;
use std::{env, fs, io};

const USAGE: &str = "usage: field_tool show FILE
       field_tool make LISTING

show prints a field file as a listing, a line for each of its records:

  field NUMBERING smax S sensors N hmax H tmax T f F seed D
  sensor K timer T holds V mark M        a row; M is a hop count, or none
  link A to B label P                    a label of 0 stands for 100
  loss A to B at I                       the copy from A to B is lost at instant I
  play B                                 B instants are to be played
  damage K timer T holds V mark M        a sensor's row overwritten

Where the file is no field, the one line is

  refusal NUMBER PLACE

and standard error says what is wrong and where.

make reads such a listing and writes the field file on standard output. Where a
line is not understood, or the lines are no field, nothing is written, and
standard error tells the line.

FILE and LISTING are - for standard input. A refusal, a bad listing and a file
that cannot be read end with status 1.
";

fn contents(rt: &HostRuntime, name: &str) -> io::Result<Vec<u8>> {
    if name == "-" {
        let mut file = Vec::new(rt.alloc());
        rt.stdin().read_to_end(&mut file)?;
        Ok(file)
    } else {
        fs::read(rt, name)
    }
}

fn refuse(rt: &HostRuntime, fault: FieldFault) -> io::Result<ExitCode> {
    let Told { number, place, .. } = fault.told();
    println!(rt; "refusal {number} {place}")?;
    eprintln!(rt; "field_tool: record {place}: {fault}")?;
    Ok(ExitCode::FAILURE)
}

fn list(rt: &HostRuntime, file: &[u8]) -> io::Result<ExitCode> {
    let mut page = Vec::new(rt.alloc());
    let size = put_on(rt.alloc(), &Listing { file }, &mut page)?;
    rt.write_all(&page[..size])?;
    Ok(ExitCode::SUCCESS)
}

fn show(rt: &HostRuntime, name: &str) -> io::Result<ExitCode> {
    let Ok(file) = contents(rt, name) else {
        eprintln!(rt; "field_tool: {name} cannot be read")?;
        return Ok(ExitCode::FAILURE);
    };
    match check_file(&file) {
        Ok(()) => list(rt, &file),
        Err(fault) => refuse(rt, fault),
    }
}

fn main(rt: HostRuntime) -> io::Result<ExitCode> {
    let words: Vec<String> = env::args(&rt)?.skip(1).collect(rt.alloc())?;
    match words.as_slice() {
        [word] if word.as_str() == "--help" => {
            rt.print(USAGE)?;
            Ok(ExitCode::SUCCESS)
        }
        [word, name] if word.as_str() == "show" => show(&rt, name),
        [word, name] if word.as_str() == "make" => make(&rt, name),
        _ => {
            eprintln!(rt; "field_tool: it is called as show FILE, make LISTING, or --help")?;
            Ok(ExitCode::FAILURE)
        }
    }
}
