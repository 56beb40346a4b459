#![tactic(auto)]

// THE RECORD PART, the entries for scans that are lent as a list of low and high pairs. To write, the pairs are split into lows and
// highs, and the writer's core, on two lists of numbers, does the rest; to read, see `reader`.
mod reader;

ghost use Rattle.pairs.specs.Pairs.{PairsWritten, OneWritten};

pub use reader::read_pairs;
use record::limits::MAX_SCANS;
use record::{Answer, Scan};
use writer::write;

// Writes the record that the lists and the pairs name to the front of the output, and gives its size in bytes; the rest of the output stays as it was.
// 4 where they break a rule, as more than 64 scans do, then 8 where the output is too short: both change nothing.
pub fn write_pairs(
    snapshot: u32,
    kinds: &[u8],
    keys: &[u32],
    payloads: &[u64],
    scans: &[Scan],
    output: &mut [u8],
) -> Result<usize, Answer>
    ensures { PairsWritten snapshot kinds.now keys.now payloads.now scans.now output.old result output.new }
{
    let count = scans.len();
    if MAX_SCANS < count {
        return Err(Answer::MALFORMED);
    }
    // Two lists, as the writer's core takes them: its lists are those of the C interface.
    let mut lows = [0u32; MAX_SCANS];
    let mut highs = [0u32; MAX_SCANS];
    for (i, scan) in scans.iter().enumerate() {
        lows[i] = scan.low;
        highs[i] = scan.high;
    }
    write(
        snapshot,
        kinds,
        keys,
        payloads,
        &lows[..count],
        &highs[..count],
        output,
    )
}

// Writes a record with one scan, for a caller that lends no list of pairs.
pub fn write_one(
    snapshot: u32,
    kinds: &[u8],
    keys: &[u32],
    payloads: &[u64],
    scan: Scan,
    output: &mut [u8],
) -> Result<usize, Answer>
    ensures { OneWritten snapshot kinds.now keys.now payloads.now scan output.old result output.new }
{
    let scans = [scan];
    write_pairs(snapshot, kinds, keys, payloads, &scans, output)
}
