#![tactic(auto)]

// THE PROGRAM AT FULL SIZE (R46): as `verdicts`, for every N that a pool can have. The bytes for its pool, 4 MiB and 64, stand on the stack.
ghost use Rattle.std.specs.Prelude.{◌≤◌, length};
ghost use Rattle.lines.specs.Opening.{size_for};
ghost use Rattle.replay.specs.Program.{largest_n, ProgramRuns};

use lines::Output;
use std::io;
use std::io::{Print, Read};
use stream::{Ending, meld_input, print_closing};

// The largest N.
const MOST_KEYS: u32 = 65536;

// The bytes of a pool for that N.
const POOL: usize = 4194368;

// Melds the input into a pool made of the bytes lent, which are enough for the largest N, and answers how the run ends. What the programs share is
// `meld_input`; what this one promises, with its own N, is said here.
fn meld_into<R: Read, P: Print>(input: &mut R, out: &mut Output<P>, pool: &mut [u8]) -> Ending
    requires { size_for largest_n ≤ length pool.old }
    ensures { ProgramRuns pool.old pool.new result }
{
    meld_input(input, out, pool, MOST_KEYS)
}

// The same in a pool of its own size. It stands apart so that the list of so many bytes is known by its length alone.
fn meld_in<R: Read, P: Print>(input: &mut R, out: &mut Output<P>, pool: &mut [u8; POOL]) -> Ending
    ensures { ProgramRuns pool.old pool.new result }
{
    meld_into(input, out, pool)
}

fn main(rt: HostRuntime) -> io::Result<()> {
    let mut pool = [0u8; POOL];
    let mut input = rt.stdin();
    let mut out = Output::new(rt.stdout());
    let ending = meld_in(&mut input, &mut out, &mut pool);
    print_closing(&mut out, ending);
    out.end()
}
