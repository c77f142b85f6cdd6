// The cases in which a file is refused, in the order in which they are looked for.

// Of the records one by one.
#[derive(Clone, Copy)]
pub enum RecordCase {
    Length,
    Kind,
    Zero,
}

// Of the records as a field.
#[derive(Clone, Copy)]
pub enum FieldCase {
    Order,
    Setting,
    Ends,
    Links,
    Count,
    Rows,
    Losses,
}
