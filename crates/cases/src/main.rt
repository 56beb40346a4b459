#![tactic(auto)]

// THE CASES: standard input is a sequence of cases, each a length of four bytes and as many bytes, which are an input of the program
// `verdicts`. For each it prints a line `case K`, K from 1, and then what that program prints. Cases have at most 65,536 bytes.
ghost use Rattle.lines.specs.Opening.{New};
ghost use Rattle.lines.specs.Parts.{LogMelded};

use lines::{HEAD, Output, feed_part, finish, open, print_answer, print_ending};
use record::limits::MAX_SIZE;
use record_log::Cut;
use std::io;
use std::io::{Print, Read};
use stream::fill;
use words::word4;

// The largest N, as in `verdicts`, and the bytes of a pool for it.
const MOST_KEYS: u32 = 1000;

const POOL: usize = 64064;

// The most bytes that a case has.
const CASE: usize = 65536;

// Prints the line that opens a case.
fn print_case<P: Print>(out: &mut Output<P>, number: u64) {
    out.say(format_args!("case {number}\n"));
}

// Feeds a whole log to a new pool as one part, prints a line for each record, with positions from 1 on, and answers how it ends.
fn meld_log<P: Print>(out: &mut Output<P>, pool: &mut [u8], log: &[u8]) -> Cut
    requires { New pool.old }
    ensures { LogMelded log.now pool.old pool.new result }
{
    let mut carry = [0u8; MAX_SIZE];
    let going = feed_part(out, pool, &mut carry, 0, log, 1);
    if going.stopped {
        return Cut::Impossible;
    }
    finish(pool, &mut carry, going.carried)
}

// Prints the lines of one input.
fn print_verdicts<P: Print>(out: &mut Output<P>, input: &[u8]) {
    let mut pool = [0u8; POOL];
    match open(&mut pool, input, MOST_KEYS) {
        Ok(size) => {
            let found = meld_log(out, &mut pool[..size], &input[HEAD..]);
            print_ending(out, found);
        }
        Err(answer) => print_answer(out, answer),
    }
}

// Reads one case into the bytes lent, which are as many as it has, and prints its lines.
fn run_case<R: Read, P: Print>(input: &mut R, out: &mut Output<P>, number: u64, space: &mut [u8]) {
    let got = fill(input, space, 0).held;
    print_case(out, number);
    print_verdicts(out, &space[..got]);
}

// The length in front of the next case, where its four bytes are there.
fn next_length<R: Read>(input: &mut R) -> Option<usize> {
    let mut bytes = [0u8; 4];
    if fill(input, &mut bytes, 0).held < 4 {
        return None;
    }
    Some(word4(&bytes, 0) as usize)
}

// Runs the next case, where one follows: its length is there and is not too large.
fn run_next<R: Read, P: Print>(input: &mut R, out: &mut Output<P>, number: u64) -> Option<()> {
    let length = next_length(input)?;
    if length > CASE {
        return None;
    }
    let mut space = [0u8; CASE];
    run_case(input, out, number, &mut space[..length]);
    Some(())
}

fn main(rt: HostRuntime) -> io::Result<()> {
    let mut input = rt.stdin();
    let mut out = Output::new(rt.stdout());
    for number in 1..u64::MAX {
        if run_next(&mut input, &mut out, number).is_none() {
            break;
        }
    }
    out.end()
}
