// What a call of `feed` tells.
use record::Answer;

// What a call has done.
#[derive(Clone, Copy)]
pub enum Happened {
    // A record was decided: its verdict, 6, 4, 5, 2, 1, 3 or 0.
    Decided(Answer),
    // None was: 8, 11, 7 or 10.
    Refused(Answer),
    // The part is taken, and its record or its length is still without its last byte.
    More,
    // The log is over, behind a whole record or with none.
    End,
}

// What happened, the looks of the record decided (else 0), how many bytes of the part were taken, and how many are at the carry's front now.
#[derive(Clone, Copy)]
pub struct Fed {
    pub happened: Happened,
    pub looks: u32,
    pub taken: usize,
    pub carried: usize,
}
