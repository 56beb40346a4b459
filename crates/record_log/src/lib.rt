#![tactic(auto)]

// Cutting a log: what stands at a place of it, and the part handed out there. Records stand back to back; nothing here reads one.
ghost use Rattle.record_log.specs.Log.{CutIs, HandedOut};

pub mod found;
pub mod length;

pub use found::Cut;
pub use length::is_impossible;
use words::word2;

// What stands at `place`, for any log and any place: past the end the log is torn.
pub fn cut(log: &[u8], place: usize) -> Cut
    ensures { CutIs log.now place result }
{
    if place == log.len() {
        return Cut::End;
    }
    let Some(left) = log.len().checked_sub(place) else {
        return Cut::Torn;
    };
    if left < 2 {
        return Cut::Torn;
    }
    let length = word2(log, place) as usize;
    if is_impossible(length) {
        return Cut::Impossible;
    }
    if left < 2 + length {
        return Cut::Torn;
    }
    Cut::Record(place + 2 + length)
}

// The record at `place` as a part of the log; the empty part where none stands.
pub fn part(log: &[u8], place: usize) -> &[u8]
    ensures { HandedOut log.entry place result }
{
    let Cut::Record(next) = cut(log, place) else {
        return &log[..0];
    };
    &log[place..next]
}
