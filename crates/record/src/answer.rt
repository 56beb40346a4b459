// The answers, each number with its one name. Every function that answers and every tool that prints uses these.
// They are constants of one type and no enum (docs/DECISIONS.md, D48).
ghost use Rattle.std.specs.Prelude.{◌≡◌};

use std::fmt;

#[derive(Clone, Copy, PartialEq, Eq)]
pub struct Answer {
    pub number: u8,
}

impl Answer {
    pub const COMMITTED: Answer = Answer { number: 0 };

    pub const CONFLICT: Answer = Answer { number: 1 };

    pub const TOO_OLD: Answer = Answer { number: 2 };

    pub const NO_ROOM: Answer = Answer { number: 3 };

    pub const MALFORMED: Answer = Answer { number: 4 };

    pub const AHEAD: Answer = Answer { number: 5 };

    pub const POSITIONS_USED_UP: Answer = Answer { number: 6 };

    pub const UNFIT_POOL: Answer = Answer { number: 7 };

    pub const OUTPUT_SHORT: Answer = Answer { number: 8 };

    pub const BAD_LIMITS: Answer = Answer { number: 9 };

    pub const TORN_LOG: Answer = Answer { number: 10 };

    pub const IMPOSSIBLE_LENGTH: Answer = Answer { number: 11 };

    pub const CANNOT_JOIN: Answer = Answer { number: 12 };
}

// The answer's number.
impl From<Answer> for u8 {
    ghost from_gives = { λ answer number. number ≡ answer.number };

    fn from(answer: Answer) -> u8 {
        answer.number
    }
}

// The answer's name.
impl fmt::Display for Answer {
    fn fmt<W: fmt::Write>(&self, f: &mut fmt::Formatter<W>) -> fmt::Result {
        f.write_str(match *self {
            Answer::COMMITTED => "committed",
            Answer::CONFLICT => "conflict",
            Answer::TOO_OLD => "too old",
            Answer::NO_ROOM => "no room",
            Answer::MALFORMED => "malformed",
            Answer::AHEAD => "ahead",
            Answer::POSITIONS_USED_UP => "positions used up",
            Answer::UNFIT_POOL => "unfit pool",
            Answer::OUTPUT_SHORT => "output short",
            Answer::BAD_LIMITS => "bad limits",
            Answer::TORN_LOG => "torn log",
            Answer::IMPOSSIBLE_LENGTH => "impossible length",
            Answer::CANNOT_JOIN => "cannot join",
            _ => "no answer",
        })
    }
}
