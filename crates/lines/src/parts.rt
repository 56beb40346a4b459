// A log fed part by part, with a line for each record decided.
ghost use Rattle.std.specs.Prelude.{◌≡◌};
ghost use Rattle.lines.specs.Parts.{goes_on_by, PartFed, Finishes};

use crate::output::Output;
use crate::printing::{Line, print_line};
use pages::{Happened, feed};
use record::Answer;
use record_log::Cut;
use std::io::Print;

// How far a log is: the bytes carried, the position of the record that comes next, and whether a call has said that the log does not go on. Both
// numbers are told in either case, so they stand beside the flag.
#[derive(Clone, Copy)]
pub struct Going {
    pub carried: usize,
    pub position: u64,
    pub stopped: bool,
}

// Whether the log goes on behind what a call has said.
fn goes_on(happened: Happened) -> bool
    ensures { result ≡ goes_on_by happened }
{
    match happened {
        Happened::Decided(_) => true,
        Happened::Refused(_) => false,
        Happened::More => true,
        Happened::End => false,
    }
}

// Feeds a part, and what a call has not taken of it again, until nothing is left of it or a call says that the log does not go on. It prints a
// line for each record; the first has the position given.
pub fn feed_part<P: Print>(
    out: &mut Output<P>,
    pool: &mut [u8],
    carry: &mut [u8],
    carried: usize,
    part: &[u8],
    position: u64,
) -> Going
    ensures { PartFed part.now position pool.old carry.old carried pool.new carry.new result }
{
    let mut carried = carried;
    let mut position = position;
    let mut place: usize = 0;
    // It moves on by what was taken, so no index is counted.
    while place < part.len() {
        let fed = feed(pool, carry, carried, &part[place..], false);
        carried = fed.carried;
        place += fed.taken;
        if let Happened::Decided(answer) = fed.happened {
            print_line(
                out,
                Line {
                    position,
                    answer,
                    looks: fed.looks,
                },
            );
            position = position.wrapping_add(1);
        }
        if !goes_on(fed.happened) {
            return Going {
                carried,
                position,
                stopped: true,
            };
        }
    }
    Going {
        carried,
        position,
        stopped: false,
    }
}

// Says that the log is over, and answers how it ends: at its end, at an impossible length, or torn.
pub fn finish(pool: &mut [u8], carry: &mut [u8], carried: usize) -> Cut
    ensures { Finishes pool.old carry.old carried pool.new carry.new result }
{
    match feed(pool, carry, carried, &[], true).happened {
        Happened::End => Cut::End,
        Happened::Refused(Answer::IMPOSSIBLE_LENGTH) => Cut::Impossible,
        Happened::Decided(_) | Happened::Refused(_) | Happened::More => Cut::Torn,
    }
}
