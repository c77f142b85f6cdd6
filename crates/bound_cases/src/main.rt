// Runs `bound` on each line of standard input, which is a command line without the program's name.
// A line `windowed WINDOW HELD BASE` asks the same of a numbering made outside the crate of the four.
#![tactic(auto)]

use inquiry::{ANSWER_ROOM, Complaint, LentReport, Reply};
use page::Text;
use printing::put_on;
use std::alloc::{AllocError, Global};
use std::io;
use windowed::Windowed;

fn words_of(heap: Global, line: &str) -> Result<Vec<String>, AllocError> {
    line.split_whitespace()
        .map(|word| String::from_str(heap, word))
        .try_collect(heap)
}

fn windowed_in(word: &str) -> Option<Windowed> {
    Windowed::new(word.parse::<u16>().ok()?)
}

fn complain(rt: &HostRuntime, complaint: Complaint) -> io::Result<()> {
    println!(rt; "bound: {complaint}")
}

fn print<T: Text + Drop>(
    rt: &HostRuntime,
    answer: Result<T, Complaint>,
    page: &mut Vec<u8>,
) -> io::Result<()> {
    match answer {
        Ok(text) => {
            let size = put_on(rt.alloc(), &text, page)?;
            rt.write_all(&page[..size])
        }
        Err(complaint) => complain(rt, complaint),
    }
}

fn run(rt: &HostRuntime, line: &str, page: &mut Vec<u8>) -> io::Result<()> {
    println!(rt; "$ bound {line}")?;
    let words = words_of(rt.alloc(), line)?;
    match words.as_slice() {
        [name, window, held, base] if name.as_str() == "windowed" => match windowed_in(window) {
            Some(numbering) => print(rt, LentReport::new(&numbering, held, base), page),
            None => complain(rt, Complaint::Words),
        },
        words => print(rt, Reply::new(words), page),
    }
}

fn main(rt: HostRuntime) -> io::Result<()> {
    let mut page = vec![in rt.alloc(); 0u8; ANSWER_ROOM]?;
    for line in rt.lines(rt.alloc()) {
        let line = line?;
        run(&rt, line.as_str(), &mut page)?;
    }
    Ok(())
}
