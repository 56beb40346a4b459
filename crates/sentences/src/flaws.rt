// What is wrong with a malformed record, in a sentence.
use asking::{Flaw, Wrong};
use lines::Output;
use std::io::Print;

// Says what is wrong with so many bytes. A `Display` would take a type of its own around the flaw and the size, and the same match.
pub fn say_flaw<P: Print>(out: &mut Output<P>, flaw: Flaw, size: usize) {
    let at = flaw.at;
    out.say(format_args!("at byte {at}: "));
    match flaw.wrong {
        Wrong::Short => out.say("the record ends, and the smallest has 9 bytes\n"),
        Wrong::Length(number) => out.say(format_args!(
            "the length says {number}, and with its own two bytes there are {size}\n"
        )),
        Wrong::Version(number) => {
            out.say(format_args!("version {number}, and there are only 1 and 2\n"))
        }
        Wrong::Counts => out.say("the record ends within its two counts\n"),
        Wrong::PointsIn1(number) => {
            out.say(format_args!("{number} points, and version 1 has up to 64\n"))
        }
        Wrong::ScansIn1(number) => {
            out.say(format_args!("{number} scans, and version 1 has up to 8\n"))
        }
        Wrong::Points(number) => out.say(format_args!("{number} points, and there may be 1024\n")),
        Wrong::Scans(number) => out.say(format_args!("{number} scans, and there may be 64\n")),
        Wrong::Few => out.say("version 2, and up to 64 points and 8 scans have version 1\n"),
        Wrong::Kind(number) => out.say(format_args!("there is no kind {number} of points\n")),
        Wrong::Key(number) => {
            out.say(format_args!("key {number} is not above the key before it\n"))
        }
        Wrong::Low(number) => out.say(format_args!(
            "a scan from {number} does not begin above the scan before it\n"
        )),
        Wrong::High(number) => {
            out.say(format_args!("a scan ends at {number}, below where it begins\n"))
        }
        Wrong::Torn => out.say("the record ends within this point or scan\n"),
        Wrong::Rest => out.say("there are bytes behind its last point or scan\n"),
    }
}
