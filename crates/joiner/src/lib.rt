#![tactic(auto)]

// THE RECORD PART, the joiner: two records, meant for one position and the next, as one.
// Nothing here knows of a pool or a tree.
mod left;
mod points;
mod scans;

ghost use Rattle.std.specs.Prelude.{◌≡◌};
ghost use Rattle.record.specs.Parse.{head_of, parse};
ghost use Rattle.joiner.specs.Joined.{joined_if};
ghost use Rattle.joiner.specs.Joiner.{JoinsAs};
ghost use Rattle.joiner.specs.Passes.{found_of};

use points::{count_points, put_joined_points};
use record::limits::{MAX_POINTS, MAX_SCANS};
use record::{Answer, Head, head_of, head_size, version_for};
use scans::{count_scans, put_joined_scans};
use words::word4;
use writer::put_head;

// What the first pass finds: how many points, scans and bytes the joined record has.
#[derive(Clone, Copy)]
struct Found {
    points: usize,
    scans: usize,
    size: usize,
}

// The first pass: checks both records and counts what the joined one has; none if they cannot be joined. The heads are known to be right. The scans come
// first: a record's length and its head say where they stand, and a's puts and deletes are held against b's scans while the points are counted.
fn count_both(a: &[u8], head_a: Head, b: &[u8], head_b: Head) -> Option<Found>
    requires { (head_of a.now ≡ Some head_a) × (head_of b.now ≡ Some head_b) }
    ensures { result ≡ found_of (joined_if (parse a.now) (parse b.now)) }
{
    if word4(a, 3) != word4(b, 3) {
        return None;
    }
    if a.len() < head_a.start + 8 * head_a.scans || b.len() < head_b.start + 8 * head_b.scans {
        return None;
    }
    let scans = count_scans(a, head_a, b, head_b)?;
    if MAX_SCANS < scans {
        return None;
    }
    let count = count_points(a, head_a, b, head_b)?;
    if count.end_a != a.len() - 8 * head_a.scans || count.end_b != b.len() - 8 * head_b.scans {
        return None;
    }
    if MAX_POINTS < count.points {
        return None;
    }
    Some(Found {
        points: count.points,
        scans,
        size: head_size(version_for(count.points, scans)) + count.size + 8 * scans,
    })
}

// Joins two records: writes the one that does what a and then b do to the front of the output, and gives its size in bytes; the rest of the output
// stays as it was. 12 where they cannot be joined, then 8 where the output is too short: both change nothing.
pub fn join(a: &[u8], b: &[u8], output: &mut [u8]) -> Result<usize, Answer>
    ensures { JoinsAs a.now b.now output.old result output.new }
{
    let head_a = head_of(a).ok_or(Answer::CANNOT_JOIN)?;
    let head_b = head_of(b).ok_or(Answer::CANNOT_JOIN)?;
    let found = count_both(a, head_a, b, head_b).ok_or(Answer::CANNOT_JOIN)?;
    if output.len() < found.size {
        return Err(Answer::OUTPUT_SHORT);
    }
    let version = version_for(found.points, found.scans);
    put_head(
        output,
        (found.size - 2) as u32,
        version,
        word4(a, 3),
        found.points as u32,
        found.scans as u32,
    );
    let at = put_joined_points(a, head_a, b, head_b, head_size(version), output);
    put_joined_scans(a, head_a, b, head_b, at, output);
    Ok(found.size)
}
