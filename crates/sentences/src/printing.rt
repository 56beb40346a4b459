// What is printed: the answer in words, or one line of numbers.
use crate::sentences::say_why;
use asking::{Told, numbers_of};
use lines::{Output, ending_answer, print_answer, print_ending};
use meld::Status;
use reason::Explained;
use record::Answer;
use record_log::Cut;
use std::io::Print;

// Prints what was told as a line of numbers.
fn print_in_numbers<P: Print>(out: &mut Output<P>, told: Told) {
    match told {
        Told::Limits { .. } => print_answer(out, Answer::BAD_LIMITS),
        Told::Over { found, .. } => print_ending(out, found),
        Told::Unfit(explained) => print_answer(out, explained.answer),
        Told::Record { status, explained } => {
            let numbers = numbers_of(status, explained);
            out.say(format_args!("{numbers}\n"))
        }
    }
}

// Says the first line of an answer: whose it is, its position where it has one, the answer's name and its number.
fn say_first<P: Print>(out: &mut Output<P>, whose: &str, position: Option<u32>, answer: Answer) {
    let number = u8::from(answer);
    match position {
        Some(position) => out.say(format_args!("{whose} {position}: {answer} ({number})\n")),
        None => out.say(format_args!("{whose}: {answer} ({number})\n")),
    }
}

// Says that no pool can be made for the limits, of which so many bytes were there.
fn say_limits<P: Print>(out: &mut Output<P>, held: usize, n: u32, z: u32) {
    say_first(out, "limits", None, Answer::BAD_LIMITS);
    if held < 8 {
        out.say(format_args!("there are {held} bytes, and N and Z take 8\n"));
    } else {
        out.say(format_args!("N is {n}, and may be 1 to 65536; Z is {z}, and may be 1 to 4096\n"));
    }
}

// Says where the log stops, so many records into it.
fn say_torn<P: Print>(out: &mut Output<P>, records: u32) {
    if records == 0 {
        out.say("the log stops within its first record\n");
    } else {
        out.say(format_args!("the log stops within the record behind record {records}\n"));
    }
}

// Says where a length stands that no record has, so many records into the log.
fn say_impossible<P: Print>(out: &mut Output<P>, records: u32) {
    if records == 0 {
        out.say("at its start");
    } else {
        out.say(format_args!("behind record {records}"));
    }
    out.say(" stands a length that no record has: 7 to 13,833 can be\n");
}

// Says that the log is torn, or that a length in it is impossible, by the answer for it; nothing where the log ends, which has none.
fn say_stopped<P: Print>(out: &mut Output<P>, found: Cut, records: u32) {
    let Some(answer) = ending_answer(found) else {
        return;
    };
    say_first(out, "log", None, answer);
    if answer == Answer::TORN_LOG {
        say_torn(out, records);
    } else {
        say_impossible(out, records);
    }
}

// Says that the pool is unfit.
fn say_unfit<P: Print>(out: &mut Output<P>, explained: Explained) {
    say_first(out, "pool", None, explained.answer);
    out.say("these bytes are no pool, or a damaged one\n");
}

// Says what explaining a record's bytes has told. The record's position is the one among its numbers, where 0 is none.
fn say_record<P: Print>(out: &mut Output<P>, status: Status, explained: Explained, bytes: &[u8]) {
    let position = numbers_of(status, explained).position;
    say_first(
        out,
        "record",
        (position != 0).then_some(position),
        explained.answer,
    );
    say_why(out, status, explained, bytes);
}

// Says what was told in words. A log that ends before the position has no answer, and nothing is said.
fn say_in_words<P: Print>(out: &mut Output<P>, told: Told, bytes: &[u8]) {
    match told {
        Told::Limits { held, n, z } => say_limits(out, held, n, z),
        Told::Over { found, records } => say_stopped(out, found, records),
        Told::Unfit(explained) => say_unfit(out, explained),
        Told::Record { status, explained } => say_record(out, status, explained, bytes),
    }
}

// Prints what was told of a record's bytes. That a log ends before the position goes to the complaints.
pub fn print_told<P: Print, E: Print>(
    out: &mut Output<P>,
    complaints: &mut Output<E>,
    told: Told,
    bytes: &[u8],
    in_numbers: bool,
) {
    if in_numbers {
        print_in_numbers(out, told);
    } else {
        say_in_words(out, told, bytes);
    }
    if let Told::Over { found, records } = told {
        if ending_answer(found).is_none() {
            complaints.say(format_args!(
                "explain: no record has that position; records in the log: {records}\n"
            ));
        }
    }
}
