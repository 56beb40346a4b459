#![tactic(auto)]

// The two forms over structs, run: the log reader over a small log, and the writer's entry for pairs.
// The log is the records of rows 4 and 3 of R44 back to back, and one byte that is no record. First a line with the place of a new reader
// after one step. Then for each step from a place a line: what was found there, in words (`record`, `end`, `torn` or `impossible`), the place
// afterwards, and how many bytes were handed out. Then the second of the two records is written, with its scan as a pair, and printed: answer, size,
// and the bytes.
ghost use Rattle.std.specs.Prelude.{◌≡◌};
ghost use Rattle.record_log.specs.Log.{cut_at, place_after};

use log_reader::LogReader;
use record::{Answer, Scan};
use record_log::Cut;
use std::io;

// The word that a line begins with. It is this program's own: the lines of the other programs have other words.
fn word_for(found: Cut) -> &'static str {
    match found {
        Cut::End => "end",
        Cut::Torn => "torn",
        Cut::Impossible => "impossible",
        Cut::Record(_) => "record",
    }
}

// Where a new reader of the log stands after one step.
fn second_place(log: &[u8]) -> usize
    ensures { result ≡ place_after (cut_at log.now 0) 0 }
{
    let mut reader = LogReader::new(log);
    reader.step();
    reader.place()
}

// One step from a place, and its line; gives the place afterwards.
fn line<P: Print>(rt: &P, log: &[u8], place: usize) -> io::Result<usize> {
    let step = log_reader::step_at(log, place);
    let part = log_reader::part_at(log, place);
    let found = word_for(step.found);
    let next = step.place;
    let size = part.len();
    println!(rt; "{found} {next} {size}")?;
    Ok(next)
}

// The bytes, each as a decimal number.
fn bytes<P: Print>(rt: &P, list: &[u8]) -> io::Result<()> {
    for byte in list {
        print!(rt; " {byte}")?;
    }
    Ok(())
}

// Writes the record with snapshot 1, put 30 = 300 and the scan from `low` to `high`, and its line.
fn written<P: Print>(rt: &P, low: u32, high: u32) -> io::Result<()> {
    let mut output = [0u8; 32];
    let kinds = [2u8; 1];
    let keys = [30u32; 1];
    let payloads = [300u64; 1];
    let scan = Scan { low, high };
    let (answer, size) = match pairs::write_one(1, &kinds, &keys, &payloads, scan, &mut output) {
        Ok(size) => (Answer::COMMITTED, size),
        Err(answer) => (answer, 0),
    };
    print!(rt; "{} {size}", answer.number)?;
    bytes(rt, &output)?;
    println!(rt)
}

fn main(rt: HostRuntime) -> io::Result<()> {
    let log =
        b"\x00\x0C\x01\x00\x00\x00\x01\x01\x00\x01\x00\x00\x00\x1E\x00\x1C\x01\x00\x00\x00\x01\x01\x01\x02\x00\x00\x00\x1E\x00\x00\x00\x00\x00\x00\x01\x2C\x00\x00\x00\x0B\x00\x00\x00\x13\x00";
    let second = second_place(log);
    println!(rt; "{second}")?;
    let second = line(&rt, log, 0)?;
    let third = line(&rt, log, second)?;
    let stays = line(&rt, log, third)?;
    line(&rt, log, stays)?;
    line(&rt, log, 45)?;
    line(&rt, log, 46)?;
    written(&rt, 11, 19)?;
    written(&rt, 19, 11)
}
