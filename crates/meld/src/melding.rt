// Melding one record into a pool. The pool is a slice with `Fit` in each `requires`: what is called takes the slice, and a type of fit pools would be
// opened at each call.
ghost use Rattle.std.specs.Prelude.{◌≤◌, replicate};
ghost use Rattle.record.specs.Reader.{lists, RoomFor};
ghost use Rattle.pool.specs.Image.{Fit};
ghost use Rattle.meld.specs.Melds.{Melds, MeldsFit};

use crate::lists::meld_lists;
use advance::advance;
use fit::fit;
use nodes::{LAST_POSITION, read_header};
use record::limits::{MAX_POINTS, MAX_SCANS, SMALL_POINTS, SMALL_SCANS};
use record::{Answer, is_large, read};

// The verdict on a record, and how many nodes the conflict walk looked at. Not one type with `Judged`, whose 0 says only that rows 5, 2 and 1 do not
// apply.
#[derive(Clone, Copy)]
pub struct Melded {
    pub answer: Answer,
    pub looks: u32,
}

// Melds a record into a fit pool, by way of lent lists that have room for it: 6, 4, 5, 2, 1, 3 or 0. What the lists hold afterwards means nothing.
// Five lists, as `read` fills them (R10).
pub fn meld_with(
    pool: &mut [u8],
    bytes: &[u8],
    kinds: &mut [u8],
    keys: &mut [u32],
    payloads: &mut [u64],
    lows: &mut [u32],
    highs: &mut [u32],
) -> Melded
    requires fit { Fit pool.old }
    requires room_for { RoomFor bytes.now (lists kinds.old keys.old payloads.old lows.old highs.old) }
    ensures { MeldsFit pool.old bytes.now pool.new result }
{
    if read_header(pool).position == LAST_POSITION {
        return Melded {
            answer: Answer::POSITIONS_USED_UP,
            looks: 0,
        };
    }
    let Ok(reading) = read(bytes, kinds, keys, payloads, lows, highs) else {
        advance(pool);
        return Melded {
            answer: Answer::MALFORMED,
            looks: 0,
        };
    };
    let n = reading.points;
    let k = reading.scans;
    meld_lists(
        pool,
        reading.snapshot,
        &mut kinds[..n],
        &keys[..n],
        &payloads[..n],
        &lows[..k],
        &highs[..k],
    )
}

// The same, by way of lists of these two lengths.
fn meld_by<const POINTS: usize, const SCANS: usize>(pool: &mut [u8], bytes: &[u8]) -> Melded
    requires fit { Fit pool.old }
    requires room_for { RoomFor bytes.now (lists (replicate POINTS 0) (replicate POINTS 0) (replicate POINTS 0) (replicate SCANS 0) (replicate SCANS 0)) }
    requires few { (POINTS ≤ MAX_POINTS) × (SCANS ≤ MAX_SCANS) }
    ensures { MeldsFit pool.old bytes.now pool.new result }
{
    let mut kinds = [0u8; POINTS];
    let mut keys = [0u32; POINTS];
    let mut payloads = [0u64; POINTS];
    let mut lows = [0u32; SCANS];
    let mut highs = [0u32; SCANS];
    meld_with(
        pool,
        bytes,
        &mut kinds,
        &mut keys,
        &mut payloads,
        &mut lows,
        &mut highs,
    )
}

// Melds a record into a fit pool: 6, 4, 5, 2, 1, 3 or 0. For a layer above that has checked the pool itself; a user calls `meld`. A record that is not
// of version 2 is read into short lists: it does not pay for the long ones.
pub fn meld_fit(pool: &mut [u8], bytes: &[u8]) -> Melded
    requires { Fit pool.old }
    ensures { MeldsFit pool.old bytes.now pool.new result }
{
    if is_large(bytes) {
        return meld_by::<MAX_POINTS, MAX_SCANS>(pool, bytes);
    }
    meld_by::<SMALL_POINTS, SMALL_SCANS>(pool, bytes)
}

// Melds a record into a pool: the first answer that applies of 7, 6, 4, 5, 2, 1, 3, 0, and the looks. Nothing changes on 7 and 6; on 4, 5,
// 2, 1 and 3 only the position moves on; on 0 the writes are stored too. Any bytes may be lent as pool and as record.
pub fn meld(pool: &mut [u8], bytes: &[u8]) -> Melded
    ensures { Melds pool.old bytes.now pool.new result }
{
    if !fit(pool) {
        return Melded {
            answer: Answer::UNFIT_POOL,
            looks: 0,
        };
    }
    meld_fit(pool, bytes)
}
