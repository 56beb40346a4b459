// What stands at a place of a log.
#[derive(Clone, Copy)]
pub enum Cut {
    // The place is exactly the log's end.
    End,
    // Too few bytes, as past the end: the answer is 10.
    Torn,
    // A length that no record has: the answer is 11.
    Impossible,
    // A record, and the place past it.
    Record(usize),
}
