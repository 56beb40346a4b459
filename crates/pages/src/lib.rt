#![tactic(auto)]

// THE LOG IN PARTS: a log is fed as it comes, page by page or byte by byte, and each record is decided once its last byte is in.
mod carry;
pub mod told;

ghost use Rattle.std.specs.Prelude.{◌≡◌, List, ℕ, ◌+◌, ◌≤◌, length};
ghost use Rattle.pages.specs.Pages.{bytes_in, undecided, refusing, FeedsAs, RecordDecided, Feeds};
ghost use Rattle.pages.specs.Steps.{wait_row, KeepsLength, LengthIn, Complete, decided};

use carry::{Begun, how_far, may_carry, put_behind};
use fit::fit;
use meld::melding::{Melded, meld_fit};
use record::Answer;
pub use told::{Fed, Happened};

// What is told where no record was decided: no looks.
fn undecided(happened: Happened, taken: usize, carried: usize) -> Fed
    ensures { result ≡ undecided happened taken carried }
{
    Fed {
        happened,
        looks: 0,
        taken,
        carried,
    }
}

// A refusal: nothing is taken.
fn refused(answer: Answer, carried: usize) -> Fed
    ensures { result ≡ refusing answer carried }
{
    undecided(Happened::Refused(answer), 0, carried)
}

// No whole record is in: the part is kept, or the log is over, and torn if a byte is in.
fn wait(carry: &mut [u8], carried: usize, part: &[u8], over: bool) -> Fed
    requires { carried + length part.now ≤ length carry.old }
    ensures { (m : List ℕ) → FeedsAs (wait_row over (carried + length part.now)) m carry.old carried part.now result m carry.new }
{
    if !over {
        put_behind(carry, carried, part);
        return undecided(Happened::More, part.len(), carried + part.len());
    }
    if carried + part.len() == 0 {
        return undecided(Happened::End, 0, 0);
    }
    refused(Answer::TORN_LOG, carried)
}

// A length that cannot be is in: its two bytes are kept, and nothing more.
fn keep_length(carry: &mut [u8], carried: usize, part: &[u8]) -> Fed
    requires { LengthIn carry.old carried part.now }
    ensures { KeepsLength carry.old carried part.now result carry.new }
{
    let new = 2 - carried;
    put_behind(carry, carried, &part[..new]);
    undecided(Happened::Refused(Answer::IMPOSSIBLE_LENGTH), new, 2)
}

// What is told of a verdict.
fn verdict(melded: Melded, taken: usize) -> Fed
    ensures { result ≡ decided melded taken }
{
    Fed {
        happened: Happened::Decided(melded.answer),
        looks: melded.looks,
        taken,
        carried: 0,
    }
}

// The record's last byte is in. It is melded where it lies if no byte of it was carried, else from the carry.
fn decide(pool: &mut [u8], carry: &mut [u8], carried: usize, part: &[u8], size: usize) -> Fed
    requires { Complete carry.old carried part.now size }
    ensures { RecordDecided pool.old carry.old carried (bytes_in carry.old carried part.now) result pool.new carry.new }
{
    if !fit(pool) {
        return refused(Answer::UNFIT_POOL, carried);
    }
    if carried == 0 {
        return verdict(meld_fit(pool, &part[..size]), size);
    }
    let new = size - carried;
    put_behind(carry, carried, &part[..new]);
    verdict(meld_fit(pool, &carry[..size]), new)
}

// Takes the next part of a log, of any length, and decides one record at most: as soon as its last byte is in. The carry has 13,835 bytes, and so
// many at its front are those of a record that is not whole yet: 0 at first, then what the call before gave back. `over` says that the log
// ends with this part. Any bytes and numbers may be lent (R47).
pub fn feed(pool: &mut [u8], carry: &mut [u8], carried: usize, part: &[u8], over: bool) -> Fed
    ensures { Feeds pool.old carry.old carried part.now over result pool.new carry.new }
{
    if !may_carry(carry, carried) {
        return refused(Answer::OUTPUT_SHORT, carried);
    }
    match how_far(carry, carried, part) {
        Begun::Short => wait(carry, carried, part, over),
        Begun::Impossible => keep_length(carry, carried, part),
        Begun::Sized(size) => {
            if part.len() < size - carried {
                return wait(carry, carried, part, over);
            }
            decide(pool, carry, carried, part, size)
        }
    }
}
