// What `explain` tells.
use record::Answer;

// What of a record touches a key, by its number in the record, from 1 on.
#[derive(Clone, Copy)]
pub enum Touch {
    // The point with that key.
    Point(usize),
    // No point has it; this scan covers it.
    Scan(usize),
}

// Why a record gets its answer.
#[derive(Clone, Copy)]
pub enum Reason {
    // The answer says it all.
    Nothing,
    // 1: the smallest key in conflict, the position of its last write, and what touches it.
    Conflict {
        key: u32,
        position: u32,
        touch: Touch,
    },
    // 2: how many positions back the snapshot lies.
    TooOld {
        lag: u32,
    },
    // 3: how many keys would have to find room.
    NoRoom {
        keys: u32,
    },
}

// The answer and the looks that melding would give, and the reason.
#[derive(Clone, Copy)]
pub struct Explained {
    pub answer: Answer,
    pub looks: u32,
    pub reason: Reason,
}
