// The free nodes: a chain whose ranks fall by one, so that no node can stand in it twice.
ghost use Rattle.std.specs.Prelude.{◌≡◌};
ghost use Rattle.fit.specs.Whole.{free_ok, chain_ok};

use crate::lent::Pool;
use nodes::node::{FREE, NO_NODE, Node};

// Whether a node's words are those of a free node of this rank, whatever its next.
#[tactic(auto, unfolding(crate::specs::Whole::free_ok))]
fn free_fits(n: Node, rank: u32) -> bool
    ensures { result ≡ free_ok n rank }
{
    n.height == FREE
        && n.newest == rank
        && n.oldest == 0
        && n.left == 0
        && n.right == 0
        && n.kind == 0
        && n.spare == 0
}

// Whether from node `first` on there is a chain of exactly `count` free nodes.
#[tactic(auto, using(crate::proofs::FreeLaws::chain_out, crate::proofs::FreeLaws::chain_bad, crate::proofs::FreeLaws::chain_next, crate::proofs::FreeLaws::chain_end))]
pub fn chain_fits(pool: &Pool, first: u32, count: u32) -> bool
    ensures { result ≡ chain_ok pool.now.bytes.now pool.now.nodes count first }
{
    let mut i = first;
    for rank in (1..=count).rev() {
        if pool.nodes <= i {
            return false;
        }
        let n = pool.node(i);
        if !free_fits(n, rank) {
            return false;
        }
        i = n.low;
    }
    i == NO_NODE
}
