// What a pool says of itself, what a lookup answers, what a call of feed has done, and the reason of an answer, as plain numbers.
ghost use Rattle.std.specs.Prelude.{◌≡◌};
ghost use Rattle.abi.specs.Numbers.{of_status, of_lookup, of_happened, of_touch, of_reason};

use meld::{Lookup, Status};
use pages::Happened;
use reason::{Reason, Touch};
use record::Answer;
use record_abi::numbers::NO_NUMBER;

// What a pool says of itself: the answer's number, and five more, all of them 0 with 7.
#[derive(Clone, Copy)]
pub struct StatusNumbers {
    pub number: u8,
    pub limit: u32,
    pub zone: u32,
    pub position: u32,
    pub kept: u32,
    pub tombstones: u32,
}

impl From<Result<Status, Answer>> for StatusNumbers {
    ghost from_gives = { λ told numbers. numbers ≡ of_status told };

    fn from(told: Result<Status, Answer>) -> StatusNumbers {
        match told {
            Ok(status) => StatusNumbers {
                number: Answer::COMMITTED.number,
                limit: status.limit,
                zone: status.zone,
                position: status.position,
                kept: status.kept,
                tombstones: status.tombstones,
            },
            Err(answer) => StatusNumbers {
                number: answer.number,
                limit: 0,
                zone: 0,
                position: 0,
                kept: 0,
                tombstones: 0,
            },
        }
    }
}

// A lookup's answer: its number, and payload and position of what was found, both 0 otherwise.
#[derive(Clone, Copy)]
pub struct LookupNumbers {
    pub number: u8,
    pub payload: u64,
    pub position: u32,
}

impl From<Lookup> for LookupNumbers {
    ghost from_gives = { λ kept numbers. numbers ≡ of_lookup kept };

    fn from(kept: Lookup) -> LookupNumbers {
        match kept {
            Lookup::Unfit => LookupNumbers {
                number: Answer::UNFIT_POOL.number,
                payload: 0,
                position: 0,
            },
            Lookup::Absent => LookupNumbers {
                number: NO_NUMBER,
                payload: 0,
                position: 0,
            },
            Lookup::Found { payload, position } => LookupNumbers {
                number: NO_NUMBER,
                payload,
                position,
            },
        }
    }
}

// What a call of `emuparasol_feed` has done, each number with its one name: C is given numbers.
pub const REFUSED: u8 = 0;

pub const DECIDED: u8 = 1;

pub const MORE: u8 = 2;

pub const END: u8 = 3;

// What happened, and the answer's number beside it: 0 where there is no answer.
#[derive(Clone, Copy)]
pub struct HappenedNumbers {
    pub happened: u8,
    pub number: u8,
}

impl From<Happened> for HappenedNumbers {
    ghost from_gives = { λ what numbers. numbers ≡ of_happened what };

    fn from(what: Happened) -> HappenedNumbers {
        match what {
            Happened::Decided(answer) => HappenedNumbers {
                happened: DECIDED,
                number: answer.number,
            },
            Happened::Refused(answer) => HappenedNumbers {
                happened: REFUSED,
                number: answer.number,
            },
            Happened::More => HappenedNumbers {
                happened: MORE,
                number: NO_NUMBER,
            },
            Happened::End => HappenedNumbers {
                happened: END,
                number: NO_NUMBER,
            },
        }
    }
}

// What touches a key: the number of the point, or of the scan, and 0 for the other.
#[derive(Clone, Copy)]
pub struct TouchNumbers {
    pub point: usize,
    pub scan: usize,
}

impl From<Touch> for TouchNumbers {
    ghost from_gives = { λ touch numbers. numbers ≡ of_touch touch };

    fn from(touch: Touch) -> TouchNumbers {
        match touch {
            Touch::Point(number) => TouchNumbers {
                point: number,
                scan: 0,
            },
            Touch::Scan(number) => TouchNumbers {
                point: 0,
                scan: number,
            },
        }
    }
}

// The numbers of a reason, each 0 where it does not tell it.
#[derive(Clone, Copy)]
pub struct ReasonNumbers {
    pub key: u32,
    pub position: u32,
    pub point: usize,
    pub scan: usize,
    pub lag: u32,
    pub keys: u32,
}

impl From<Reason> for ReasonNumbers {
    ghost from_gives = { λ why numbers. numbers ≡ of_reason why };

    fn from(why: Reason) -> ReasonNumbers {
        match why {
            Reason::Nothing => ReasonNumbers {
                key: 0,
                position: 0,
                point: 0,
                scan: 0,
                lag: 0,
                keys: 0,
            },
            Reason::Conflict {
                key,
                position,
                touch,
            } => {
                let by = TouchNumbers::from(touch);
                ReasonNumbers {
                    key,
                    position,
                    point: by.point,
                    scan: by.scan,
                    lag: 0,
                    keys: 0,
                }
            }
            Reason::TooOld { lag } => ReasonNumbers {
                key: 0,
                position: 0,
                point: 0,
                scan: 0,
                lag,
                keys: 0,
            },
            Reason::NoRoom { keys } => ReasonNumbers {
                key: 0,
                position: 0,
                point: 0,
                scan: 0,
                lag: 0,
                keys,
            },
        }
    }
}
