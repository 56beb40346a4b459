#![tactic(auto)]

// THE RECORD PART, the writer: a record that lent lists name, into lent bytes.
// Nothing here knows of a pool or a tree.
mod rules;
mod store;

ghost use Rattle.record.specs.Reader.{lists};
ghost use Rattle.writer.specs.Writer.{WritesAs};

use record::{Answer, head_size, version_for};
use rules::named_size;
pub use store::{put_head, put_point, put_scan};
use store::{put_points, put_scans};

// Writes the record that the lists name to the front of the output, and gives its size in bytes; the rest of the output stays as it was.
// 4 where the lists break a rule, then 8 where the output is too short: both change nothing.
// The lists are those of the C interface, so they are lent one by one.
pub fn write(
    snapshot: u32,
    kinds: &[u8],
    keys: &[u32],
    payloads: &[u64],
    lows: &[u32],
    highs: &[u32],
    output: &mut [u8],
) -> Result<usize, Answer>
    ensures { WritesAs snapshot
        (lists kinds.now keys.now payloads.now lows.now highs.now)
        output.old result output.new }
{
    let size = named_size(kinds, keys, payloads, lows, highs).ok_or(Answer::MALFORMED)?;
    if output.len() < size {
        return Err(Answer::OUTPUT_SHORT);
    }
    let version = version_for(kinds.len(), lows.len());
    put_head(
        output,
        (size - 2) as u32,
        version,
        snapshot,
        kinds.len() as u32,
        lows.len() as u32,
    );
    let at = put_points(kinds, keys, payloads, head_size(version), output);
    put_scans(lows, highs, at, output);
    Ok(size)
}
