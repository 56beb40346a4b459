// What refresh asks of a record before it looks at the output.
// The pool is a slice with `Fit` in each `requires`: what is called takes the slice, and a type of fit pools would be opened at each call.
// An `Answer` and no `Result`: `judge` gives 0 as one of its answers, and `refresh` gives it too, so a `Result` would be made and undone.
ghost use Rattle.std.specs.Prelude.{◌≤◌, replicate};
ghost use Rattle.record.specs.Reader.{lists, RoomFor};
ghost use Rattle.pool.specs.Image.{Fit};
ghost use Rattle.refresh.specs.Refreshed.{AskedIs};

use conflict_search::Footprint;
use judge::judge;
use record::limits::{MAX_POINTS, MAX_SCANS, SMALL_POINTS, SMALL_SCANS};
use record::{Answer, is_large, read};

// 4, 5, 2 or 1, the first that applies, or 0, by way of lent lists that have room for the record. What the lists hold afterwards means nothing.
// Five lists, as `read` fills them (R10).
fn asked_with(
    pool: &[u8],
    original: &[u8],
    kinds: &mut [u8],
    keys: &mut [u32],
    payloads: &mut [u64],
    lows: &mut [u32],
    highs: &mut [u32],
) -> Answer
    requires fit { Fit pool.now }
    requires room_for { RoomFor original.now (lists kinds.old keys.old payloads.old lows.old highs.old) }
    ensures { AskedIs pool.now original.now result }
{
    let Ok(reading) = read(original, kinds, keys, payloads, lows, highs) else {
        return Answer::MALFORMED;
    };
    let points = reading.points;
    let scans = reading.scans;
    let footprint = Footprint {
        keys: &keys[..points],
        lows: &lows[..scans],
        highs: &highs[..scans],
    };
    judge(pool, reading.snapshot, &footprint).answer
}

// The same, by way of lists of these two lengths.
fn asked_by<const POINTS: usize, const SCANS: usize>(pool: &[u8], original: &[u8]) -> Answer
    requires fit { Fit pool.now }
    requires room_for { RoomFor original.now (lists (replicate POINTS 0) (replicate POINTS 0) (replicate POINTS 0) (replicate SCANS 0) (replicate SCANS 0)) }
    requires few { (POINTS ≤ MAX_POINTS) × (SCANS ≤ MAX_SCANS) }
    ensures { AskedIs pool.now original.now result }
{
    let mut kinds = [0u8; POINTS];
    let mut keys = [0u32; POINTS];
    let mut payloads = [0u64; POINTS];
    let mut lows = [0u32; SCANS];
    let mut highs = [0u32; SCANS];
    asked_with(
        pool,
        original,
        &mut kinds,
        &mut keys,
        &mut payloads,
        &mut lows,
        &mut highs,
    )
}

// 4, 5, 2 or 1, the first that applies, or 0. A record that is not of version 2 is read into short lists.
pub fn asked(pool: &[u8], original: &[u8]) -> Answer
    requires { Fit pool.now }
    ensures { AskedIs pool.now original.now result }
{
    if is_large(original) {
        asked_by::<MAX_POINTS, MAX_SCANS>(pool, original)
    } else {
        asked_by::<SMALL_POINTS, SMALL_SCANS>(pool, original)
    }
}
