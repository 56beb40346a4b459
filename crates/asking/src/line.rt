// The nine numbers of an explanation (R52).
ghost use Rattle.std.specs.Prelude.{◌≡◌};
ghost use Rattle.asking.specs.Numbers.{numbers_of};

use meld::Status;
use reason::{Explained, Reason, Touch};
use std::fmt;

// In the order of the line; what the reason does not tell is 0.
#[derive(Clone, Copy)]
pub struct Numbers {
    pub position: u32,
    pub answer: u8,
    pub looks: u32,
    pub key: u32,
    pub written: u32,
    pub point: usize,
    pub scan: usize,
    pub lag: u32,
    pub keys: u32,
}

// The line, with single spaces.
impl fmt::Display for Numbers {
    fn fmt<W: fmt::Write>(&self, f: &mut fmt::Formatter<W>) -> fmt::Result {
        let Numbers {
            position,
            answer,
            looks,
            key,
            written,
            point,
            scan,
            lag,
            keys,
        } = *self;
        write!(
            f,
            "{position} {answer} {looks} {key} {written} {point} {scan} {lag} {keys}"
        )
    }
}

// The numbers of an explanation of a record to a pool with this status. The position is the one that the record has or would get: 0 where
// positions are used up.
pub fn numbers_of(status: Status, explained: Explained) -> Numbers
    ensures { result ≡ numbers_of status explained }
{
    let numbers = Numbers {
        position: status.position.wrapping_add(1),
        answer: u8::from(explained.answer),
        looks: explained.looks,
        key: 0,
        written: 0,
        point: 0,
        scan: 0,
        lag: 0,
        keys: 0,
    };
    match explained.reason {
        Reason::Nothing => numbers,
        Reason::Conflict {
            key,
            position,
            touch: Touch::Point(point),
        } => Numbers {
            key,
            written: position,
            point,
            ..numbers
        },
        Reason::Conflict {
            key,
            position,
            touch: Touch::Scan(scan),
        } => Numbers {
            key,
            written: position,
            scan,
            ..numbers
        },
        Reason::TooOld { lag } => Numbers { lag, ..numbers },
        Reason::NoRoom { keys } => Numbers { keys, ..numbers },
    }
}
