#![tactic(auto)]

// The log reader: it holds the lent log and its own place in it, and hands out one record after the other. Every function over
// it takes the reader apart and leaves the work to `record_log::cut` and `record_log::part`, on a slice and a number.
ghost use Rattle.record_log.specs.Log.{HandedOut};
ghost use Rattle.log_reader.specs.LogReader.{Opened, PlaceIs, Stepped, Moved};

use record_log::{Cut, cut, part};

#[derive(Drop)]
pub struct LogReader<'a> {
    pub log: &'a [u8],
    pub place: usize,
}

// What one step gives: what stands at the place, and the part handed out, which is empty unless it is a record.
#[derive(Drop)]
pub struct Step<'a> {
    pub found: Cut,
    pub part: &'a [u8],
}

// What one step from a place gives to a caller that holds no reader.
#[derive(Drop)]
pub struct Move {
    pub found: Cut,
    pub place: usize,
}

impl<'a> LogReader<'a> {
    // A reader of the lent log that stands at its first byte.
    pub fn new(log: &'a [u8]) -> LogReader<'a>
        ensures { Opened log.entry result }
    {
        LogReader { log, place: 0 }
    }

    // The reader's place in the log. The reader stays there.
    pub fn place(&self) -> usize
        ensures { PlaceIs self.now result }
    {
        self.place
    }

    // One step: at a record the part handed out is that record and the reader moves past it; at the end, in a torn log
    // and at an impossible length the part is empty and the reader stays.
    pub fn step(&mut self) -> Step<'a>
        ensures { Stepped self.old self.new result }
    {
        let found = cut(self.log, self.place);
        let part = part(self.log, self.place);
        if let Cut::Record(next) = found {
            self.place = next;
        }
        Step { found, part }
    }
}

// One step of a reader of `log` that stands at `place`, for a caller that holds no reader: what stands there, and the place
// afterwards.
pub fn step_at(log: &[u8], place: usize) -> Move
    ensures { Moved log.now place result }
{
    let mut reader = LogReader { log, place };
    let step = reader.step();
    Move {
        found: step.found,
        place: reader.place,
    }
}

// The part that the same step hands out.
pub fn part_at(log: &[u8], place: usize) -> &[u8]
    ensures { HandedOut log.entry place result }
{
    let mut reader = LogReader { log, place };
    let step = reader.step();
    step.part
}
