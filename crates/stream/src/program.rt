// The whole input: the limits, the pool made for them, and the log.
ghost use Rattle.stream.specs.Runs.{Runs};

use crate::closing::Ending;
use crate::input::fill;
use crate::turns::meld_through;
use lines::{HEAD, Output, open};
use record::limits::MAX_SIZE;
use std::io::{Print, Read};

// The bytes of a page.
const PAGE: usize = 4096;

// Reads the limits from an input, makes the pool that they ask for out of the bytes lent, for an N up to the largest, and melds the log
// behind them. It prints the records' lines and answers how the run ends.
pub fn meld_input<R: Read, P: Print>(
    input: &mut R,
    out: &mut Output<P>,
    pool: &mut [u8],
    most: u32,
) -> Ending
    ensures { Runs most pool.old pool.new result }
{
    let mut head = [0u8; HEAD];
    let limits = fill(input, &mut head, 0);
    if limits.failed {
        return Ending::Unread;
    }
    match open(pool, &head[..limits.held], most) {
        Ok(size) => {
            let mut carry = [0u8; MAX_SIZE];
            let mut page = [0u8; PAGE];
            meld_through(input, out, &mut pool[..size], &mut carry, &mut page)
        }
        Err(answer) => Ending::Limits(answer),
    }
}
