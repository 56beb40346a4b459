// Whether lent lists keep the rules of a record, and how many bytes the record has.
ghost use Rattle.std.specs.Prelude.{◌≡◌, ◌≤◌, length};
ghost use Rattle.record.specs.Parse.{end_of};
ghost use Rattle.record.specs.Reader.{lists};
ghost use Rattle.writer.specs.Writer.{point_named, scan_named, named_points, named_scans, record_of, size_end};

use record::limits::{MAX_POINTS, MAX_SCANS};
use record::point::{DELETE, PUT, READ};
use record::{Item, Point, Scan, head_size, version_for};

// The point that a kind, a key and a payload name, if they keep the rules and the key is at least `low`.
#[tactic(auto, unfolding(crate::specs::Writer::point_named))]
fn point_named(kind: u8, key: u32, payload: u64, low: u64) -> Option<Point>
    ensures { result ≡ point_named low kind key payload }
{
    if u64::from(key) < low {
        return None;
    }
    match (kind, payload) {
        (READ, 0) => Some(Point::Read(key)),
        (PUT, _) => Some(Point::Put(key, payload)),
        (DELETE, 0) => Some(Point::Delete(key)),
        _ => None,
    }
}

// The scan from `low` to `high`, if it keeps the rules and `low` is at least `floor`.
#[tactic(auto, unfolding(crate::specs::Writer::scan_named))]
fn scan_named(low: u32, high: u32, floor: u64) -> Option<Scan>
    ensures { result ≡ scan_named floor low high }
{
    if u64::from(low) < floor || high < low {
        return None;
    }
    Some(Scan { low, high })
}

// Where the bytes of the points that the lists name end, if they start at `start`.
// One loop for points and scans would need a type for the three lists, one for the two and a trait of both: no plainer.
fn points_end(kinds: &[u8], keys: &[u32], payloads: &[u64], start: usize) -> Option<usize>
    requires { (length keys.now ≡ length kinds.now) × (length payloads.now ≡ length kinds.now) × (length kinds.now ≤ 1024) × (start ≤ 11) }
    ensures { result ≡ end_of (named_points 0 kinds.now keys.now payloads.now start) }
{
    let mut at = start;
    let mut low = 0;
    for i in 0..kinds.len() {
        let point = point_named(kinds[i], keys[i], payloads[i], low)?;
        at += point.size();
        low = point.above();
    }
    Some(at)
}

// Where the bytes of the scans that the lists name end, if they start at `start`.
fn scans_end(lows: &[u32], highs: &[u32], start: usize) -> Option<usize>
    requires { (length highs.now ≡ length lows.now) × (length lows.now ≤ 64) × (start ≤ 13323) }
    ensures { result ≡ end_of (named_scans 0 lows.now highs.now start) }
{
    let mut at = start;
    let mut floor = 0;
    for i in 0..lows.len() {
        let scan = scan_named(lows[i], highs[i], floor)?;
        at += 8;
        floor = scan.above();
    }
    Some(at)
}

// The size of the record that the lists name, if they keep every rule. It is the same for every snapshot, so for 0.
pub fn named_size(
    kinds: &[u8],
    keys: &[u32],
    payloads: &[u64],
    lows: &[u32],
    highs: &[u32],
) -> Option<usize>
    ensures { result ≡ size_end (record_of 0
        (lists kinds.now keys.now payloads.now lows.now highs.now)) }
{
    if keys.len() != kinds.len()
        || payloads.len() != kinds.len()
        || highs.len() != lows.len()
        || MAX_POINTS < kinds.len()
        || MAX_SCANS < lows.len()
    {
        return None;
    }
    let start = head_size(version_for(kinds.len(), lows.len()));
    let at = points_end(kinds, keys, payloads, start)?;
    scans_end(lows, highs, at)
}
