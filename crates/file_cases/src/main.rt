// Checks each file that standard input names, and says whether it passes, or which refusal it gets and where.
#![tactic(auto)]

use checking::check_file;
use refusal::Told;
use std::{fs, io};

fn judge(rt: &HostRuntime, name: &str) -> io::Result<()> {
    let file = fs::read(rt, name)?;
    match check_file(&file) {
        Ok(()) => println!(rt; "{name} passes"),
        Err(fault) => {
            let Told { number, place, .. } = fault.told();
            println!(rt; "{name} refusal {number} {place}")
        }
    }
}

fn main(rt: HostRuntime) -> io::Result<()> {
    for name in rt.lines(rt.alloc()) {
        let name = name?;
        judge(&rt, &name)?;
    }
    Ok(())
}
