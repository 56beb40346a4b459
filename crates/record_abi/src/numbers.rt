// What the record part gives back, as plain numbers.
ghost use Rattle.std.specs.Prelude.{◌≡◌};
ghost use Rattle.record_abi.specs.Numbers.{of_reading, of_size, of_cut};

use record::{Answer, Reading};
use record_log::Cut;

// The number of a case to which the rules give none.
pub const NO_NUMBER: u8 = 0;

// What was read: the answer's number, and the snapshot and both counts, all three 0 on a refusal.
#[derive(Clone, Copy)]
pub struct ReadingNumbers {
    pub number: u8,
    pub snapshot: u32,
    pub points: usize,
    pub scans: usize,
}

impl From<Result<Reading, Answer>> for ReadingNumbers {
    ghost from_gives = { λ read numbers. numbers ≡ of_reading read };

    fn from(read: Result<Reading, Answer>) -> ReadingNumbers {
        match read {
            Ok(reading) => ReadingNumbers {
                number: Answer::COMMITTED.number,
                snapshot: reading.snapshot,
                points: reading.points,
                scans: reading.scans,
            },
            Err(answer) => ReadingNumbers {
                number: answer.number,
                snapshot: 0,
                points: 0,
                scans: 0,
            },
        }
    }
}

// What was written or joined: the answer's number, and the size in bytes, 0 on a refusal.
#[derive(Clone, Copy)]
pub struct SizeNumbers {
    pub number: u8,
    pub size: usize,
}

impl From<Result<usize, Answer>> for SizeNumbers {
    ghost from_gives = { λ given numbers. numbers ≡ of_size given };

    fn from(given: Result<usize, Answer>) -> SizeNumbers {
        match given {
            Ok(size) => SizeNumbers {
                number: Answer::COMMITTED.number,
                size,
            },
            Err(answer) => SizeNumbers {
                number: answer.number,
                size: 0,
            },
        }
    }
}

// What stands at a place: its number, and the place afterwards.
#[derive(Clone, Copy)]
pub struct CutNumbers {
    pub number: u8,
    pub next: usize,
}

// What a cut found at a place, as numbers. It is given the place too, so it is no `From`.
pub fn of_cut(found: Cut, place: usize) -> CutNumbers
    ensures { result ≡ of_cut found place }
{
    match found {
        Cut::End => CutNumbers {
            number: NO_NUMBER,
            next: place,
        },
        Cut::Torn => CutNumbers {
            number: Answer::TORN_LOG.number,
            next: place,
        },
        Cut::Impossible => CutNumbers {
            number: Answer::IMPOSSIBLE_LENGTH.number,
            next: place,
        },
        Cut::Record(next) => CutNumbers {
            number: NO_NUMBER,
            next,
        },
    }
}
