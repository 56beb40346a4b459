// A leaf, looked at by its parent: no call for a leaf.
ghost use Rattle.std.specs.Prelude.{◌≡◌};
ghost use Rattle.pool.specs.Times.{bit};
ghost use Rattle.fit.specs.Check.{entry_ok, leaf_ok};

use nodes::node::{LIVE, NO_TOMBSTONE, Node, TOMBSTONE};
use std::ops::Range;

// Whether a leaf's words are those of a live key or of a tombstone, whatever its key.
#[tactic(auto, unfolding(crate::specs::Check::entry_ok, crate::specs::Check::live_ok, crate::specs::Check::tombstone_ok))]
fn entry_fits(n: Node) -> bool
    ensures { result ≡ entry_ok n }
{
    n.newest > 0
        && n.spare == 0
        && match n.kind {
            LIVE => n.oldest == NO_TOMBSTONE,
            TOMBSTONE => n.oldest == n.newest && n.left == 0 && n.right == 0,
            _ => false,
        }
}

// Whether n is a leaf, but for its height, and its key one of these.
#[tactic(auto, unfolding(crate::specs::Check::leaf_ok))]
fn leaf_fits(n: Node, keys: Range<u64>) -> bool
    ensures { result ≡ leaf_ok n keys.start keys.end }
{
    keys.contains(&u64::from(n.low)) && entry_fits(n)
}

// 1 if n is such a leaf, else 0.
pub fn leaf_count(n: Node, keys: Range<u64>) -> u64
    ensures { result ≡ bit (leaf_ok n keys.start keys.end) }
{
    // A choice, and no widened bool: that took 8 of 100 instructions more of the whole check.
    if leaf_fits(n, keys) { 1 } else { 0 }
}
