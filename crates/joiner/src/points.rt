// The points of two records as one list, in the order of their keys: counted in the first pass, stored in the second.
ghost use Rattle.std.specs.Prelude.{◌≡◌, true, ◌+◌, ◌*◌, ◌≤◌, ◌<◌, length};
ghost use Rattle.std.proofs.lemmas.List.Edits.{sets};
ghost use Rattle.record.specs.Record.{points_bytes};
ghost use Rattle.record.specs.Parse.{is_took, list_of};
ghost use Rattle.joiner.specs.Joined.{puts_or_deletes};
ghost use Rattle.joiner.specs.ScanSteps.{all_scans};
ghost use Rattle.joiner.specs.PointSteps.{PointsFit, PointTaken, PointsJoin, all_points, points_of_both, last_scans, ends_below, starts_by, not_below, count_of};

use crate::left::Left;
use record::{Head, Point};
use words::word4;
use writer::put_point;

// The next of the joined points, and whether a puts or deletes its key.
#[derive(Clone, Copy)]
pub struct PointTake {
    pub point: Point,
    pub changed: bool,
}

// How many points the joined record has, how many bytes they have, and where each record's points end.
#[derive(Clone, Copy)]
pub struct Count {
    pub points: usize,
    pub size: usize,
    pub end_a: usize,
    pub end_b: usize,
}

// Whether a point puts or deletes its key.
fn puts_or_deletes(point: Point) -> bool
    ensures { result ≡ puts_or_deletes point }
{
    matches!(point, Point::Put(_, _) | Point::Delete(_))
}

// Takes the next point from what is left of a's and of b's points: the one with the lower key, or one for both; none if a point is not well formed or a
// puts or deletes a key that b names.
fn take_point(a: &[u8], left_a: &mut Left, b: &[u8], left_b: &mut Left) -> Option<PointTake>
    requires { (left_a.old.at ≤ length a.now) × (left_b.old.at ≤ length b.now) × (0 < left_a.old.count + left_b.old.count) }
    ensures { PointTaken a.now left_a.old b.now left_b.old result left_a.new left_b.new }
{
    if left_a.count == 0 {
        let point: Point = left_b.first(b)?;
        left_b.pass(point);
        return Some(PointTake {
            point,
            changed: false,
        });
    }
    let first: Point = left_a.first(a)?;
    let changed = puts_or_deletes(first);
    if left_b.count == 0 {
        left_a.pass(first);
        return Some(PointTake {
            point: first,
            changed,
        });
    }
    let second: Point = left_b.first(b)?;
    // Two comparisons: a match on `cmp` took thirteen instructions more for each point.
    if first.key() < second.key() {
        left_a.pass(first);
        return Some(PointTake {
            point: first,
            changed,
        });
    }
    if second.key() < first.key() {
        left_b.pass(second);
        return Some(PointTake {
            point: second,
            changed: false,
        });
    }
    if changed {
        return None;
    }
    left_a.pass(first);
    left_b.pass(second);
    let point = if puts_or_deletes(second) {
        second
    } else {
        first
    };
    Some(PointTake {
        point,
        changed: false,
    })
}

// Whether there is a first of the last `left` scans of a record, and it ends below the key.
fn ends_below(bytes: &[u8], left: usize, key: u32) -> bool
    requires { 8 * left ≤ length bytes.now }
    ensures { result ≡ ends_below key (last_scans left bytes.now) }
{
    left != 0 && word4(bytes, bytes.len() - 8 * left + 4) < key
}

// Whether there is a first of the last `left` scans of a record, and it starts at the key or below.
fn starts_by(bytes: &[u8], left: usize, key: u32) -> bool
    requires { 8 * left ≤ length bytes.now }
    ensures { result ≡ starts_by key (last_scans left bytes.now) }
{
    left != 0 && word4(bytes, bytes.len() - 8 * left) <= key
}

// How many of the last `left` scans of a record are left when those that end below the key are passed over.
fn pass_scans(bytes: &[u8], left: usize, key: u32) -> usize
    requires { 8 * left ≤ length bytes.now }
    ensures { (result ≤ left) × (last_scans result bytes.now ≡ not_below key (last_scans left bytes.now)) }
{
    let mut rest = left;
    // A search that stops at a condition: no index is counted up to an end.
    while ends_below(bytes, rest, key) {
        rest -= 1;
    }
    rest
}

// Counts the joined points of two records with these heads; none if a point is not well formed, or b names or scans a key that a puts or deletes.
pub fn count_points(a: &[u8], head_a: Head, b: &[u8], head_b: Head) -> Option<Count>
    requires heads_fit { PointsFit a.now head_a × PointsFit b.now head_b × (8 * head_b.scans ≤ length b.now) }
    requires scans_taken { is_took (all_scans b.now head_b) ≡ true }
    ensures { result ≡ count_of (list_of (all_scans b.now head_b)) (all_points a.now head_a) (all_points b.now head_b) }
{
    let mut left_a = Left::points(head_a);
    let mut left_b = Left::points(head_b);
    let mut ahead = head_b.scans;
    let mut points: usize = 0;
    let mut size: usize = 0;
    while 0 < left_a.count + left_b.count {
        let next = take_point(a, &mut left_a, b, &mut left_b)?;
        let key = next.point.key();
        ahead = pass_scans(b, ahead, key);
        if next.changed && starts_by(b, ahead, key) {
            return None;
        }
        points += 1;
        size += next.point.size();
    }
    Some(Count {
        points,
        size,
        end_a: left_a.at,
        end_b: left_b.at,
    })
}

// Stores the joined points of two records with these heads from `start` on, and gives the place past them.
pub fn put_joined_points(
    a: &[u8],
    head_a: Head,
    b: &[u8],
    head_b: Head,
    start: usize,
    output: &mut [u8],
) -> usize
    requires points_join { PointsJoin (all_points a.now head_a) (all_points b.now head_b) }
    requires heads_fit { PointsFit a.now head_a × PointsFit b.now head_b }
    requires room { start + length (points_bytes (points_of_both (all_points a.now head_a) (all_points b.now head_b))) ≤ length output.old }
    ensures value { result ≡ start + length (points_bytes (points_of_both (all_points a.now head_a) (all_points b.now head_b))) }
    ensures output_after { output.new ≡ sets output.old start (points_bytes (points_of_both (all_points a.now head_a) (all_points b.now head_b))) }
{
    let mut left_a = Left::points(head_a);
    let mut left_b = Left::points(head_b);
    let mut at = start;
    while 0 < left_a.count + left_b.count {
        let point = take_point(a, &mut left_a, b, &mut left_b).unwrap().point;
        at = put_point(output, at, point.kind(), point.key(), point.payload());
    }
    at
}
