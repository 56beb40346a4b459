// Whether lent bytes are a well-formed record.
ghost use Rattle.std.specs.Prelude.{◌≡◌, ◌≤◌, length};
ghost use Rattle.record.specs.Record.{version_for, head_size};
ghost use Rattle.record.specs.Parse.{step_point, step_scan, parse_run, end_of, head_for, head_of, parse, well_formed, is_large, CheckIs};

use crate::answer::Answer;
use crate::item::Item;
use crate::limits::{MAX_POINTS, MAX_SCANS, SMALL_POINTS, SMALL_SCANS, VERSION_1, VERSION_2};
use crate::point::{DELETE, PUT, Point, READ, Scan};
use words::{word2, word4, word8};

// What stands before the points: how many points and scans there are, and where the first point stands.
#[derive(Clone, Copy)]
pub struct Head {
    pub points: usize,
    pub scans: usize,
    pub start: usize,
}

// The point at a place, if it is well formed and its key is at least `low`.
#[tactic(auto, unfolding(crate::specs::Parse::step_point))]
pub fn point_at(bytes: &[u8], at: usize, low: u64) -> Option<Point>
    requires { at ≤ length bytes.now }
    ensures { result ≡ step_point low bytes.now at }
{
    let left = bytes.len() - at;
    if left < 5 {
        return None;
    }
    let key = word4(bytes, at + 1);
    if u64::from(key) < low {
        return None;
    }
    match bytes[at] {
        READ => Some(Point::Read(key)),
        PUT if 13 <= left => Some(Point::Put(key, word8(bytes, at + 5))),
        DELETE => Some(Point::Delete(key)),
        _ => None,
    }
}

// The scan at a place, if it is well formed and its low is at least `floor`.
#[tactic(auto, unfolding(crate::specs::Parse::step_scan))]
pub fn scan_at(bytes: &[u8], at: usize, floor: u64) -> Option<Scan>
    requires { at ≤ length bytes.now }
    ensures { result ≡ step_scan floor bytes.now at }
{
    if bytes.len() - at < 8 {
        return None;
    }
    let low = word4(bytes, at);
    if u64::from(low) < floor {
        return None;
    }
    let high = word4(bytes, at + 4);
    if high < low {
        return None;
    }
    Some(Scan { low, high })
}

// Where `count` items that start at `start` end, if each of them is well formed.
fn run_end<T: Item>(bytes: &[u8], start: usize, count: usize) -> Option<usize>
    requires { start ≤ length bytes.now }
    ensures { result ≡ end_of (parse_run T.items count 0 bytes.now start) }
{
    let mut at = start;
    let mut least = 0;
    for _ in 0..count {
        let item = T::item_at(bytes, at, least)?;
        at += item.item_size();
        least = item.above();
    }
    Some(at)
}

// The version of a record with so many points and scans.
#[tactic(auto, unfolding(crate::specs::Record::version_for))]
pub fn version_for(points: usize, scans: usize) -> u8
    ensures { result ≡ version_for points scans }
{
    if SMALL_POINTS < points || SMALL_SCANS < scans {
        VERSION_2
    } else {
        VERSION_1
    }
}

// How many bytes stand before the first point in a version.
pub fn head_size(version: u8) -> usize
    ensures { result ≡ head_size version }
{
    7 + 2 * usize::from(version)
}

// The head of a version with these counts, if they are not too large and the version is theirs.
#[tactic(auto, unfolding(crate::specs::Parse::head_for, crate::specs::Parse::counts_ok))]
fn counted(version: u8, points: usize, scans: usize) -> Option<Head>
    ensures { result ≡ head_for version points scans }
{
    if MAX_POINTS < points || MAX_SCANS < scans || version_for(points, scans) != version {
        return None;
    }
    Some(Head {
        points,
        scans,
        start: head_size(version),
    })
}

// What stands before the points. A count has one byte in version 1, two in version 2.
pub fn head_of(bytes: &[u8]) -> Option<Head>
    ensures { result ≡ head_of bytes.now }
{
    if bytes.len() < 9 || word2(bytes, 0) as usize + 2 != bytes.len() {
        return None;
    }
    match bytes[2] {
        VERSION_1 => counted(VERSION_1, usize::from(bytes[7]), usize::from(bytes[8])),
        VERSION_2 if 11 <= bytes.len() => counted(
            VERSION_2,
            word2(bytes, 7) as usize,
            word2(bytes, 9) as usize,
        ),
        _ => None,
    }
}

// The head, if the bytes are exactly one well-formed record.
pub fn well_formed(bytes: &[u8]) -> Option<Head>
    ensures { result ≡ well_formed (parse bytes.now) bytes.now }
{
    let head = head_of(bytes)?;
    let at = run_end::<Point>(bytes, head.start, head.points)?;
    let end = run_end::<Scan>(bytes, at, head.scans)?;
    if end == bytes.len() { Some(head) } else { None }
}

// Whether a record needs the lists of version 2: where it is well formed, it has more than 64 points or more than 8 scans.
pub fn is_large(bytes: &[u8]) -> bool
    ensures { result ≡ is_large bytes.now }
{
    3 <= bytes.len() && bytes[2] == VERSION_2
}

// 0 where the bytes are exactly one well-formed record, 4 where they are not. Any bytes of any length may be lent.
pub fn check(bytes: &[u8]) -> Answer
    ensures { CheckIs bytes.now result }
{
    match well_formed(bytes) {
        None => Answer::MALFORMED,
        Some(_) => Answer::COMMITTED,
    }
}
