// Storing a record's bytes. The lists are known to keep the rules.
ghost use Rattle.std.specs.Prelude.{◌≡◌, ◌+◌, ◌^◌, ◌≤◌, ◌<◌, length};
ghost use Rattle.std.proofs.lemmas.List.Edits.{sets};
ghost use Rattle.words.specs.Word.{put_word};
ghost use Rattle.record.specs.Record.{head_size};
ghost use Rattle.writer.specs.Stored.{head_bytes, stored_point, stored_points, stored_scan, stored_scans};

use record::limits::VERSION_1;
use record::point::PUT;
use words::{put2, put4, put8};

// Stores a count: in one byte in version 1, else in two.
#[tactic(auto, using(crate::proofs::StoreLaws::count_one))]
fn put_count(output: &mut [u8], at: usize, version: u8, count: u32)
    requires { (1 ≤ version) × (version ≤ 2) × (at + version ≤ length output.old) × (count < 256 ^ version) }
    ensures { output.new ≡ put_word version output.old at count }
{
    if version == VERSION_1 {
        output[at] = count as u8;
    } else {
        put2(output, at, count);
    }
}

// Stores what stands before the points: length, version, snapshot and the two counts. `size` is what the length says.
#[tactic(auto, using(crate::proofs::StoreLaws::head_stored))]
pub fn put_head(output: &mut [u8], size: u32, version: u8, snapshot: u32, points: u32, scans: u32)
    requires version_in_bounds { (head_size version ≤ length output.old) × (size < 65536) }
    requires le_version { (1 ≤ version) × (version ≤ 2) × (points < 256 ^ version) × (scans < 256 ^ version) }
    ensures { output.new ≡ sets output.old 0 (head_bytes version size snapshot points scans) }
{
    put2(output, 0, size);
    output[2] = version;
    put4(output, 3, snapshot);
    put_count(output, 7, version, points);
    put_count(output, 7 + usize::from(version), version, scans);
}

// Stores one point, and gives the place past it.
pub fn put_point(output: &mut [u8], at: usize, kind: u8, key: u32, payload: u64) -> usize
    requires { at + length (stored_point kind key payload) ≤ length output.old }
    ensures value { result ≡ at + length (stored_point kind key payload) }
    ensures output_after { output.new ≡ sets output.old at (stored_point kind key payload) }
{
    output[at] = kind;
    put4(output, at + 1, key);
    if kind != PUT {
        return at + 5;
    }
    put8(output, at + 5, payload);
    at + 13
}

// Stores the points from `start` on, and gives the place past them.
// One loop for points and scans would need a type for the three lists, one for the two and a trait of both: no plainer.
pub fn put_points(
    kinds: &[u8],
    keys: &[u32],
    payloads: &[u64],
    start: usize,
    output: &mut [u8],
) -> usize
    requires { (length keys.now ≡ length kinds.now) × (length payloads.now ≡ length kinds.now)
        × (start + length (stored_points kinds.now keys.now payloads.now) ≤ length output.old) }
    ensures value { result ≡ start + length (stored_points kinds.now keys.now payloads.now) }
    ensures output_after { output.new
        ≡ sets output.old start (stored_points kinds.now keys.now payloads.now) }
{
    let mut at = start;
    for i in 0..kinds.len() {
        at = put_point(output, at, kinds[i], keys[i], payloads[i]);
    }
    at
}

// Stores one scan.
#[tactic(auto, using(crate::proofs::StoreLaws::scan_stored))]
pub fn put_scan(output: &mut [u8], at: usize, low: u32, high: u32)
    requires { at + 8 ≤ length output.old }
    ensures { output.new ≡ sets output.old at (stored_scan low high) }
{
    put4(output, at, low);
    put4(output, at + 4, high);
}

// Stores the scans from `start` on.
pub fn put_scans(lows: &[u32], highs: &[u32], start: usize, output: &mut [u8])
    requires { (length highs.now ≡ length lows.now) × (start + length (stored_scans lows.now highs.now) ≤ length output.old) }
    ensures { output.new ≡ sets output.old start (stored_scans lows.now highs.now) }
{
    let mut at = start;
    for i in 0..lows.len() {
        put_scan(output, at, lows[i], highs[i]);
        at += 8;
    }
}
