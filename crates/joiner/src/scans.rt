// The scans of two records as one list, where those that share a key become one: counted in the first pass, stored in the second.
ghost use Rattle.std.specs.Prelude.{◌≡◌, ◌+◌, ◌≤◌, ◌<◌, length};
ghost use Rattle.std.proofs.lemmas.List.Edits.{sets};
ghost use Rattle.record.specs.Record.{scans_bytes};
ghost use Rattle.joiner.specs.ScanSteps.{ScansFit, ScanTaken, BothTaken, all_scans, held_scans, ended, grown, scans_of_both, scans_count};

use crate::left::Left;
use record::{Head, Scan};
use writer::put_scan;

// Takes the next scan of both records, the one with the lower low, from what is left of a's and of b's; none if a scan is not well formed.
fn take_scan(a: &[u8], left_a: &mut Left, b: &[u8], left_b: &mut Left) -> Option<Scan>
    requires { (left_a.old.at ≤ length a.now) × (left_b.old.at ≤ length b.now) × (0 < left_a.old.count + left_b.old.count) }
    ensures { ScanTaken a.now left_a.old b.now left_b.old result left_a.new left_b.new }
{
    if left_a.count == 0 {
        let scan: Scan = left_b.first(b)?;
        left_b.pass(scan);
        return Some(scan);
    }
    let first: Scan = left_a.first(a)?;
    if left_b.count == 0 {
        left_a.pass(first);
        return Some(first);
    }
    let second: Scan = left_b.first(b)?;
    if first.low <= second.low {
        left_a.pass(first);
        return Some(first);
    }
    left_b.pass(second);
    Some(second)
}

// The held scan, if it ends below the key.
fn ended(held: Option<Scan>, key: u32) -> Option<Scan>
    ensures { result ≡ ended held key }
{
    held.filter(|scan| scan.high < key)
}

// The scan to hold when `scan` is next: the held one grown by it if they share a key, else `scan` itself.
fn grow(held: Option<Scan>, scan: Scan) -> Scan
    ensures { result ≡ grown held scan }
{
    match held {
        Some(held) if scan.low <= held.high => Scan {
            low: held.low,
            high: held.high.max(scan.high),
        },
        _ => scan,
    }
}

// Counts the joined scans of two records with these heads; none if a scan is not well formed.
pub fn count_scans(a: &[u8], head_a: Head, b: &[u8], head_b: Head) -> Option<usize>
    requires { ScansFit a.now head_a × ScansFit b.now head_b }
    ensures { result ≡ scans_count (all_scans a.now head_a) (all_scans b.now head_b) }
{
    let mut left_a = Left::scans(a, head_a);
    let mut left_b = Left::scans(b, head_b);
    let mut held: Option<Scan> = None;
    let mut scans: usize = 0;
    while 0 < left_a.count + left_b.count {
        let scan = take_scan(a, &mut left_a, b, &mut left_b)?;
        scans += usize::from(ended(held, scan.low).is_some());
        held = Some(grow(held, scan));
    }
    Some(scans + usize::from(held.is_some()))
}

// Stores a scan if there is one. Gives the place behind what is stored.
fn put_held(output: &mut [u8], at: usize, held: Option<Scan>) -> usize
    requires { at + length (scans_bytes (held_scans held)) ≤ length output.old }
    ensures { (output.new ≡ sets output.old at (scans_bytes (held_scans held)))
        × (result ≡ at + length (scans_bytes (held_scans held))) }
{
    match held {
        Some(scan) => {
            put_scan(output, at, scan.low, scan.high);
            at + 8
        }
        None => at,
    }
}

// Stores the joined scans of two records with these heads from `start` on.
pub fn put_joined_scans(
    a: &[u8],
    head_a: Head,
    b: &[u8],
    head_b: Head,
    start: usize,
    output: &mut [u8],
)
    requires heads_fit { ScansFit a.now head_a × ScansFit b.now head_b }
    requires both_taken { BothTaken (all_scans a.now head_a) (all_scans b.now head_b) }
    requires room { start + length (scans_bytes (scans_of_both (all_scans a.now head_a) (all_scans b.now head_b))) ≤ length output.old }
    ensures { output.new ≡ sets output.old start (scans_bytes (scans_of_both (all_scans a.now head_a) (all_scans b.now head_b))) }
{
    let mut left_a = Left::scans(a, head_a);
    let mut left_b = Left::scans(b, head_b);
    let mut held: Option<Scan> = None;
    let mut at = start;
    while 0 < left_a.count + left_b.count {
        let scan = take_scan(a, &mut left_a, b, &mut left_b).unwrap();
        at = put_held(output, at, ended(held, scan.low));
        held = Some(grow(held, scan));
    }
    put_held(output, at, held);
}
