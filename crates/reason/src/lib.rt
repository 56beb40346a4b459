#![tactic(auto)]

// THE REASON OF AN ANSWER: who beat a record, how far it lags, how many keys have to find room. Pool and record are only read.
// The pool is a slice with `Fit` in each `requires`: what is called takes the slice, and a type of fit pools would be opened at each call.
mod blame;
mod lists;
pub mod told;

ghost use Rattle.std.specs.Prelude.{◌≤◌, replicate};
ghost use Rattle.record.specs.Parse.{parse};
ghost use Rattle.record.specs.Reader.{lists, RoomFor};
ghost use Rattle.pool.specs.Image.{Arrangement, Image, Fit, state_of};
ghost use Rattle.reason.specs.Reason.{ExplainsAs, Explains};

use fit::fit;
use lists::{explain_lists, plain};
use nodes::{LAST_POSITION, read_header};
use record::limits::{MAX_POINTS, MAX_SCANS, SMALL_POINTS, SMALL_SCANS};
use record::{Answer, is_large, read};
pub use told::{Explained, Reason, Touch};

// Explains a record to a fit pool, by way of lent lists that have room for it. What the lists hold afterwards means nothing.
// Five lists, as `read` fills them (R10).
fn explain_with(
    pool: &[u8],
    bytes: &[u8],
    kinds: &mut [u8],
    keys: &mut [u32],
    payloads: &mut [u64],
    lows: &mut [u32],
    highs: &mut [u32],
) -> Explained
    requires fit { Fit pool.now }
    requires room_for { RoomFor bytes.now (lists kinds.old keys.old payloads.old lows.old highs.old) }
    ensures { (A : Arrangement) → Image pool.now A → ExplainsAs (state_of A) (parse bytes.now) result }
{
    if read_header(pool).position == LAST_POSITION {
        return plain(Answer::POSITIONS_USED_UP, 0);
    }
    let Ok(reading) = read(bytes, kinds, keys, payloads, lows, highs) else {
        return plain(Answer::MALFORMED, 0);
    };
    let n = reading.points;
    let k = reading.scans;
    explain_lists(
        pool,
        reading.snapshot,
        &mut kinds[..n],
        &keys[..n],
        &lows[..k],
        &highs[..k],
    )
}

// The same, by way of lists of these two lengths.
fn explain_by<const POINTS: usize, const SCANS: usize>(pool: &[u8], bytes: &[u8]) -> Explained
    requires fit { Fit pool.now }
    requires room_for { RoomFor bytes.now (lists (replicate POINTS 0) (replicate POINTS 0) (replicate POINTS 0) (replicate SCANS 0) (replicate SCANS 0)) }
    requires few { (POINTS ≤ MAX_POINTS) × (SCANS ≤ MAX_SCANS) }
    ensures { (A : Arrangement) → Image pool.now A → ExplainsAs (state_of A) (parse bytes.now) result }
{
    let mut kinds = [0u8; POINTS];
    let mut keys = [0u32; POINTS];
    let mut payloads = [0u64; POINTS];
    let mut lows = [0u32; SCANS];
    let mut highs = [0u32; SCANS];
    explain_with(
        pool,
        bytes,
        &mut kinds,
        &mut keys,
        &mut payloads,
        &mut lows,
        &mut highs,
    )
}

// Explains a record to a fit pool. One that is not of version 2 is read into short lists.
fn explain_fit(pool: &[u8], bytes: &[u8]) -> Explained
    requires { Fit pool.now }
    ensures { (A : Arrangement) → Image pool.now A → ExplainsAs (state_of A) (parse bytes.now) result }
{
    if is_large(bytes) {
        return explain_by::<MAX_POINTS, MAX_SCANS>(pool, bytes);
    }
    explain_by::<SMALL_POINTS, SMALL_SCANS>(pool, bytes)
}

// What melding a record into a pool would answer now, with the looks, and the reason. Nothing is melded: pool and record are only read. Any bytes may
// be lent as either.
pub fn explain(pool: &[u8], bytes: &[u8]) -> Explained
    ensures { Explains pool.now bytes.now result }
{
    if !fit(pool) {
        return plain(Answer::UNFIT_POOL, 0);
    }
    explain_fit(pool, bytes)
}
