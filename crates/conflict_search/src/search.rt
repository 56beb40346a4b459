// The conflict search at a node and below.
ghost use Rattle.std.specs.Prelude.{◌≡◌, ◌+◌, ◌^◌, ◌≤◌};
ghost use Rattle.conflict_search.specs.Search.{SearchReady, SearchedBelow};

use crate::cursor::{Cursors, forward, touched};
use crate::footprint::Footprint;
use nodes::read_node;

// The leaf that the search at a node found, how many nodes it looked at, and where it left the cursors.
#[derive(Clone, Copy)]
pub struct Progress {
    pub leaf: Option<u32>,
    pub looks: u32,
    pub cursors: Cursors,
}

// One past the last number that a node covers.
fn end_of(low: u32, height: u32) -> u64
    requires { height ≤ 32 }
    ensures { result ≡ low + 2 ^ height }
{
    u64::from(low) + (1u64 << height)
}

// Stops at a node whose newest is not above the snapshot or in whose cover nothing is named or scanned. A leaf that is not stopped at
// is the conflict; in an inner node the left child is searched, and then, if nothing was found there, the right. Height falls.
pub fn search(pool: &[u8], i: u32, snapshot: u32, lists: &Footprint<'_>, from: Cursors) -> Progress
    requires { SearchReady pool.now i lists.now.keys.now lists.now.lows.now lists.now.highs.now from }
    ensures { SearchedBelow pool.now i snapshot lists.now.keys.now lists.now.lows.now lists.now.highs.now from result }
{
    let n = read_node(pool, i);
    let old = Progress {
        leaf: None,
        looks: 1,
        cursors: from,
    };
    if n.newest <= snapshot {
        return old;
    }
    let cursors = Cursors {
        point: forward(lists.keys, from.point, n.low),
        scan: forward(lists.highs, from.scan, n.low),
    };
    let away = Progress { cursors, ..old };
    if !touched(lists.keys, lists.lows, cursors, end_of(n.low, n.height)) {
        return away;
    }
    if n.height == 0 {
        return Progress {
            leaf: Some(i),
            ..away
        };
    }
    let a = search(pool, n.left, snapshot, lists, cursors);
    if a.leaf.is_some() {
        return Progress {
            looks: a.looks + 1,
            ..a
        };
    }
    let b = search(pool, n.right, snapshot, lists, a.cursors);
    Progress {
        looks: a.looks + b.looks + 1,
        ..b
    }
}
