// What the words of the command line ask for.

pub enum Request<'a> {
    Help,
    Key { name: &'a str, counts: bool },
}

// The file is standard input where none is named.
pub fn request_in(words: &[String]) -> Option<Request<'_>> {
    let (name, counts) = match words {
        [] => ("-", false),
        [word] => match word.as_str() {
            "--help" | "-h" => return Some(Request::Help),
            "--counts" => ("-", true),
            name => (name, false),
        },
        [first, second] => match (first.as_str(), second.as_str()) {
            ("--counts", name) | (name, "--counts") => (name, true),
            _ => return None,
        },
        _ => return None,
    };
    if name.starts_with("--") {
        return None;
    }
    Some(Request::Key { name, counts })
}
