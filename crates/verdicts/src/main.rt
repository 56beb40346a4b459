#![tactic(auto)]

// THE PROGRAM (R41): limits N and Z and a log on standard input, a line for each record on standard output, then `end` or 10; only 9 for bad
// limits, an N above 1,000 or fewer than eight bytes. It reads a log of any length through one small buffer and prints as it goes.
ghost use Rattle.std.specs.Prelude.{◌≤◌, length};
ghost use Rattle.lines.specs.Opening.{size_for};
ghost use Rattle.verdicts.specs.Program.{largest_n, ProgramRuns};

use lines::Output;
use std::io;
use std::io::{Print, Read};
use stream::{Ending, meld_input, print_closing};

// The largest N.
const MOST_KEYS: u32 = 1000;

// The bytes of a pool for that N.
const POOL: usize = 64064;

// Melds the input into a pool made of the bytes lent, which are enough for the largest N, and answers how the run ends. What the programs share is
// `meld_input`; what this one promises, with its own N, is said here.
fn meld_into<R: Read, P: Print>(input: &mut R, out: &mut Output<P>, pool: &mut [u8]) -> Ending
    requires { size_for largest_n ≤ length pool.old }
    ensures { ProgramRuns pool.old pool.new result }
{
    meld_input(input, out, pool, MOST_KEYS)
}

fn main(rt: HostRuntime) -> io::Result<()> {
    let mut pool = [0u8; POOL];
    let mut input = rt.stdin();
    let mut out = Output::new(rt.stdout());
    let ending = meld_into(&mut input, &mut out, &mut pool);
    print_closing(&mut out, ending);
    out.end()
}
