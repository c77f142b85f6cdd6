// The cases in which what is in memory is no field, or no acts of one.

#[derive(Clone, Copy, PartialEq, Eq, Debug)]
pub enum MemoryCase {
    // A sensor that is not there.
    Sensors,
    // A link that breaks its limits; or repeats an earlier one, where that is looked for.
    Links { repeats: bool },
    // More links or losses than a field may have.
    Count,
    // A row that breaks its limits.
    Rows,
    // A loss without a link.
    Losses,
}

// The same of acts.
#[derive(Clone, Copy)]
pub enum ActCase {
    Sensors,
    Limits,
}
