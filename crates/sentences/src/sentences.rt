// The reason of an answer in sentences.
use crate::flaws::say_flaw;
use asking::{Named, find_flaw, named_by};
use lines::Output;
use meld::Status;
use reason::{Explained, Reason};
use record::{Answer, Point, Scan};
use std::io::Print;
use words::word4;

// The snapshot of a record, which stands behind its first three bytes (R4); 0 for bytes that have none there, and then no sentence says it.
// As an Option it would have to be taken apart in each of the four sentences that do.
fn snapshot_in(bytes: &[u8]) -> u32 {
    if bytes.len() < 7 {
        return 0;
    }
    word4(bytes, 3)
}

// What a point does.
fn deed(point: Point) -> &'static str {
    match point {
        Point::Read(_) => "read",
        Point::Put(_, _) => "put",
        Point::Delete(_) => "delete",
    }
}

// Says what of a record touches a key.
fn say_touch<P: Print>(out: &mut Output<P>, named: Named) {
    match named {
        Named::Point { number, point } => {
            let deed = deed(point);
            let key = point.key();
            out.say(format_args!("point {number} ({deed} {key}) names it\n"));
        }
        Named::Scan {
            number,
            scan: Scan { low, high },
        } => out.say(format_args!("scan {number} ({low} to {high}) covers it\n")),
    }
}

// Says of an answer that needs no reason what it means for a record at this snapshot.
fn say_plain<P: Print>(
    out: &mut Output<P>,
    answer: Answer,
    status: Status,
    snapshot: u32,
    bytes: &[u8],
) {
    let position = status.position;
    match answer {
        Answer::COMMITTED => out.say(format_args!(
            "nothing that it names or scans was written after its snapshot {snapshot}, and there is room\n"
        )),
        Answer::MALFORMED => {
            if let Some(flaw) = find_flaw(bytes) {
                say_flaw(out, flaw, bytes.len());
            }
        }
        Answer::AHEAD => out.say(format_args!(
            "its snapshot {snapshot} is past position {position}, the last before it\n"
        )),
        _ => out.say("position 4294967295 is taken, and there is none behind it\n"),
    }
}

// Says why a record's bytes get their answer.
pub fn say_why<P: Print>(out: &mut Output<P>, status: Status, explained: Explained, bytes: &[u8]) {
    let snapshot = snapshot_in(bytes);
    let zone = status.zone;
    let limit = status.limit;
    match explained.reason {
        Reason::Nothing => say_plain(out, explained.answer, status, snapshot, bytes),
        Reason::Conflict {
            key,
            position,
            touch,
        } => {
            out.say(format_args!(
                "key {key} was written by record {position}, after this record's snapshot {snapshot}\n"
            ));
            if let Some(named) = named_by(bytes, touch) {
                say_touch(out, named);
            }
        }
        Reason::TooOld { lag } => out.say(format_args!(
            "its snapshot {snapshot} is {lag} positions back, and at most {zone} (Z) may be\n"
        )),
        Reason::NoRoom { keys } => out.say(format_args!(
            "{keys} keys would have to be kept, and there is room for {limit} (N)\n"
        )),
    }
}
