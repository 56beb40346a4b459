// The log of an input, fed page by page: a page is what one read brings.
ghost use Rattle.std.specs.Prelude.{◌≡◌};
ghost use Rattle.stream.specs.Turns.{more_by, Streamed};

use crate::closing::Ending;
use crate::input::refill;
use lines::{Output, feed_part, finish};
use record_log::Cut;
use std::io::{Print, Read};

// Whether another page may follow one of so many bytes: not behind an empty one, nor where the log does not go on.
fn more_after(held: usize, stopped: bool) -> bool
    ensures { result ≡ more_by held stopped }
{
    if stopped {
        return false;
    }
    held != 0
}

// Feeds the log of an input, from where it stands, page by page, and answers how it ends, or that a read failed. A length that cannot be
// ends it at once; no page follows an empty one. A proved loop has to end, so it makes no more turns than a number that no run uses up.
pub fn meld_through<R: Read, P: Print>(
    input: &mut R,
    out: &mut Output<P>,
    pool: &mut [u8],
    carry: &mut [u8],
    page: &mut [u8],
) -> Ending
    ensures { Streamed pool.old carry.old page.old pool.new result }
{
    let mut carried = 0;
    let mut position: u64 = 1;
    for _ in 0..u64::MAX {
        let read = refill(input, page, 0);
        let going = feed_part(out, pool, carry, carried, &page[..read.held], position);
        carried = going.carried;
        position = going.position;
        if more_after(read.held, going.stopped) {
            continue;
        }
        if going.stopped {
            return Ending::Log(Cut::Impossible);
        }
        if read.failed {
            return Ending::Unread;
        }
        break;
    }
    Ending::Log(finish(pool, carry, carried))
}
