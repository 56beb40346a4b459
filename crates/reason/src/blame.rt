// Who beat a record.
ghost use Rattle.std.specs.Prelude.{◌^◌, ◌<◌, length};
ghost use Rattle.reason.specs.Steps.{TouchIs, Blamable, BlameIs};

use crate::told::{Reason, Touch};
use conflict_search::cursor::{below, forward};
use nodes::read_node;

// What touches a key that a record names or scans: the point with that key; where no point has it, the scan that covers it.
fn touch_of(keys: &[u32], highs: &[u32], key: u32) -> Touch
    requires { length highs.now < 2 ^ 32 }
    ensures { TouchIs keys.now highs.now key result }
{
    let point = forward(keys, 0, key);
    if below(keys, point, u64::from(key) + 1) {
        return Touch::Point(point + 1);
    }
    let scan = forward(highs, 0, key);
    Touch::Scan(scan + 1)
}

// The reason of a conflict whose leaf the search has named: its key, its write's position, and what touches the key.
pub fn blame(pool: &[u8], leaf: u32, keys: &[u32], highs: &[u32]) -> Reason
    requires { Blamable pool.now leaf keys.now highs.now }
    ensures { BlameIs pool.now leaf keys.now highs.now result }
{
    let n = read_node(pool, leaf);
    let touch = touch_of(keys, highs, n.low);
    Reason::Conflict {
        key: n.low,
        position: n.newest,
        touch,
    }
}
