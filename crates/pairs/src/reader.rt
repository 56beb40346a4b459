// THE RECORD PART, the reader's entry for scans that are filled into a list of low and high pairs: the reader's core, on two lists
// of numbers, reads the record; what it found of scans is then stored pair by pair.
ghost use Rattle.pairs.specs.PairReader.{PairsRead};

use record::limits::MAX_SCANS;
use record::{Answer, Reading, Scan, read};

// Reads the record that the bytes are into the fronts of the lists; the rest of each list stays as it was.
// 4 where the bytes are not well formed, then 8 where a list is too short: both change nothing.
pub fn read_pairs(
    bytes: &[u8],
    kinds: &mut [u8],
    keys: &mut [u32],
    payloads: &mut [u64],
    scans: &mut [Scan],
) -> Result<Reading, Answer>
    ensures { PairsRead bytes.now kinds.old keys.old payloads.old scans.old
        result kinds.new keys.new payloads.new scans.new }
{
    let room = scans.len().min(MAX_SCANS);
    // Two lists, as the reader's core fills them: its lists are those of the C interface.
    let mut lows = [0u32; MAX_SCANS];
    let mut highs = [0u32; MAX_SCANS];
    let reading = read(
        bytes,
        kinds,
        keys,
        payloads,
        &mut lows[..room],
        &mut highs[..room],
    )?;
    for i in 0..reading.scans {
        scans[i] = Scan {
            low: lows[i],
            high: highs[i],
        };
    }
    Ok(reading)
}
