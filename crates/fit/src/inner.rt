// An inner node: its own words, and those of its children that it sums up.
ghost use Rattle.std.specs.Prelude.{◌≡◌, ◌^◌, ◌≤◌, ◌<◌};
ghost use Rattle.fit.specs.Check.{own_ok, sums_ok, inner_ok};

use crate::lent::Pool;
use nodes::node::Node;
use std::ops::Range;

// How many numbers a node of this height covers.
pub fn size_of(height: u32) -> u64
    requires { height ≤ 32 }
    ensures { result ≡ 2 ^ height }
{
    1u64 << height
}

// Whether an inner node covers a part of these keys that begins at a multiple of its size, and its other words are zero.
#[tactic(auto, unfolding(crate::specs::Check::own_ok))]
fn own_fits(n: Node, keys: &Range<u64>) -> bool
    requires { keys.now.end ≤ 2 ^ 32 }
    ensures { result ≡ own_ok n keys.now.start keys.now.end }
{
    if n.height > 32 {
        return false;
    }
    let low = u64::from(n.low);
    let size = size_of(n.height);
    keys.start <= low && low + size <= keys.end && low % size == 0 && n.kind == 0 && n.spare == 0
}

// Whether newest and oldest of n are the larger and the smaller of its children's.
#[tactic(auto, unfolding(crate::specs::Check::sums_ok))]
fn sums_up(n: Node, l: Node, r: Node) -> bool
    ensures { result ≡ sums_ok n l r }
{
    n.newest == l.newest.max(r.newest) && n.oldest == l.oldest.min(r.oldest)
}

// Whether inner node i is one in all but what lies below it.
#[tactic(auto, unfolding(crate::specs::Check::inner_ok))]
pub fn inner_fits(pool: &Pool, i: u32, keys: &Range<u64>) -> bool
    requires { (i < pool.now.nodes) × (keys.now.end ≤ 2 ^ 32) }
    ensures { result ≡ inner_ok pool.now.bytes.now pool.now.nodes i keys.now.start keys.now.end }
{
    let n = pool.node(i);
    own_fits(n, keys)
        && n.left < pool.nodes
        && n.right < pool.nodes
        && sums_up(n, pool.node(n.left), pool.node(n.right))
}
