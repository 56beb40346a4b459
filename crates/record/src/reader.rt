// The reader: a record's bytes into lent lists.
ghost use Rattle.std.specs.Prelude.{◌≡◌, true, map, ◌≤◌, length};
ghost use Rattle.std.proofs.lemmas.List.Edits.{sets};
ghost use Rattle.record.specs.Record.{kind_of, key_of, payload_of};
ghost use Rattle.record.specs.Parse.{parse_points, parse_scans, is_took, list_of, place_of};
ghost use Rattle.record.specs.Reader.{lists, ReadsAs, low_of, high_of};

use crate::answer::Answer;
use crate::checker::{point_at, scan_at, well_formed};
use crate::item::Item;
use words::word4;

// What the reader gives back beside the lists: the snapshot, and how many points and scans there are.
#[derive(Clone, Copy)]
pub struct Reading {
    pub snapshot: u32,
    pub points: usize,
    pub scans: usize,
}

// Fills the fronts of three lists with `count` points that start at `start`, and gives the place past them.
// One loop for points and scans would need a type for the three lists, one for the two and a trait of both: no plainer.
fn fill_points(
    bytes: &[u8],
    start: usize,
    count: usize,
    kinds: &mut [u8],
    keys: &mut [u32],
    payloads: &mut [u64],
) -> usize
    requires start_in_bounds { start ≤ length bytes.now }
    requires start_value { is_took (parse_points count 0 bytes.now start) ≡ true }
    requires count_in_bounds { (count ≤ length kinds.old) × (count ≤ length keys.old) × (count ≤ length payloads.old) }
    ensures value { result ≡ place_of (parse_points count 0 bytes.now start) }
    ensures kinds_after { kinds.new ≡ sets kinds.old 0 (map kind_of (list_of (parse_points count 0 bytes.now start))) }
    ensures keys_after { keys.new ≡ sets keys.old 0 (map key_of (list_of (parse_points count 0 bytes.now start))) }
    ensures payloads_after { payloads.new ≡ sets payloads.old 0 (map payload_of (list_of (parse_points count 0 bytes.now start))) }
{
    let mut at = start;
    let mut low = 0;
    for i in 0..count {
        let point = point_at(bytes, at, low).unwrap();
        kinds[i] = point.kind();
        keys[i] = point.key();
        payloads[i] = point.payload();
        at += point.size();
        low = point.above();
    }
    at
}

// Fills the fronts of two lists with `count` scans that start at `start`.
fn fill_scans(bytes: &[u8], start: usize, count: usize, lows: &mut [u32], highs: &mut [u32])
    requires start_in_bounds { start ≤ length bytes.now }
    requires start_value { is_took (parse_scans count 0 bytes.now start) ≡ true }
    requires count_in_bounds { (count ≤ length lows.old) × (count ≤ length highs.old) }
    ensures lows_after { lows.new ≡ sets lows.old 0 (map low_of (list_of (parse_scans count 0 bytes.now start))) }
    ensures highs_after { highs.new ≡ sets highs.old 0 (map high_of (list_of (parse_scans count 0 bytes.now start))) }
{
    let mut at = start;
    let mut floor = 0;
    for i in 0..count {
        let scan = scan_at(bytes, at, floor).unwrap();
        lows[i] = scan.low;
        highs[i] = scan.high;
        at += 8;
        floor = scan.above();
    }
}

// Reads the record that the bytes are into the fronts of the lists; the rest of each list stays as it was.
// 4 where the bytes are not well formed, then 8 where a list is too short: both change nothing.
// The lists are those of the C interface, so they are lent one by one.
pub fn read(
    bytes: &[u8],
    kinds: &mut [u8],
    keys: &mut [u32],
    payloads: &mut [u64],
    lows: &mut [u32],
    highs: &mut [u32],
) -> Result<Reading, Answer>
    ensures { ReadsAs bytes.now
        (lists kinds.old keys.old payloads.old lows.old highs.old) result
        (lists kinds.new keys.new payloads.new lows.new highs.new) }
{
    let head = well_formed(bytes).ok_or(Answer::MALFORMED)?;
    if kinds.len() < head.points
        || keys.len() < head.points
        || payloads.len() < head.points
        || lows.len() < head.scans
        || highs.len() < head.scans
    {
        return Err(Answer::OUTPUT_SHORT);
    }
    let snapshot = word4(bytes, 3);
    let at = fill_points(bytes, head.start, head.points, kinds, keys, payloads);
    fill_scans(bytes, at, head.scans, lows, highs);
    Ok(Reading {
        snapshot,
        points: head.points,
        scans: head.scans,
    })
}
