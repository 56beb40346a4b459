#![tactic(auto)]

// FOR C AND RUST, the record part alone: check, read, write, join and cut over plain numbers and slices, for host tools that need no pool.
// `record_abi_c` exports these five, and nothing of a pool; `abi` has the same five beside those of the pool, with the same promises.
pub mod numbers;

ghost use Rattle.record.specs.Reader.{lists};
ghost use Rattle.record_abi.specs.Numbers.{reading, sized, found};
ghost use Rattle.record_abi.specs.Told.{ChecksAs, ReadsInNumbers, WritesInNumbers, JoinsInNumbers, CutsAs};

use joiner::join;
use numbers::{ReadingNumbers, SizeNumbers, of_cut};
use record::{check, read};
use record_log::cut;
use writer::write;

// 0 where the bytes lent are exactly one well-formed record, else 4.
pub fn emuparasol_check(record: &[u8]) -> u8
    ensures { ChecksAs «record».now result }
{
    check(record).number
}

// Reads a record into the fronts of the lists: 4, 8 or 0, with the snapshot and both counts, all three 0 on a refusal.
pub fn emuparasol_read(
    record: &[u8],
    kinds: &mut [u8],
    keys: &mut [u32],
    payloads: &mut [u64],
    lows: &mut [u32],
    highs: &mut [u32],
    snapshot: &mut u32,
    points: &mut usize,
    scans: &mut usize,
) -> u8
    ensures { ReadsInNumbers «record».now
        (lists kinds.old keys.old payloads.old lows.old highs.old)
        (reading result snapshot.new points.new scans.new)
        (lists kinds.new keys.new payloads.new lows.new highs.new) }
{
    let reading = ReadingNumbers::from(read(record, kinds, keys, payloads, lows, highs));
    *snapshot = reading.snapshot;
    *points = reading.points;
    *scans = reading.scans;
    reading.number
}

// Writes the record that the lists name to the front of the output: 4, 8 or 0, with its size, 0 on a refusal.
pub fn emuparasol_write(
    snapshot: u32,
    kinds: &[u8],
    keys: &[u32],
    payloads: &[u64],
    lows: &[u32],
    highs: &[u32],
    output: &mut [u8],
    size: &mut usize,
) -> u8
    ensures { WritesInNumbers snapshot
        (lists kinds.now keys.now payloads.now lows.now highs.now)
        output.old (sized result size.new) output.new }
{
    let written = SizeNumbers::from(write(snapshot, kinds, keys, payloads, lows, highs, output));
    *size = written.size;
    written.number
}

// Joins two records, meant for one position and the next, into one at the front of the output: 12, 8 or 0, with its size, 0 on a refusal.
pub fn emuparasol_join(a: &[u8], b: &[u8], output: &mut [u8], size: &mut usize) -> u8
    ensures { JoinsInNumbers a.now b.now output.old (sized result size.new) output.new }
{
    let joined = SizeNumbers::from(join(a, b, output));
    *size = joined.size;
    joined.number
}

// What stands at a place of a log: 10 for a torn log and 11 for an impossible length, both with the same place; else 0, with the place past the
// record, or the same place at the end.
pub fn emuparasol_cut(log: &[u8], place: usize, next: &mut usize) -> u8
    ensures { CutsAs log.now place (found result next.new) }
{
    let found = of_cut(cut(log, place), place);
    *next = found.next;
    found.number
}
