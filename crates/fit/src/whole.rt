// Fitness of any bytes.
ghost use Rattle.std.specs.Prelude.{◌≡◌, ◌≤◌, ◌<◌};
ghost use Rattle.pool.specs.Image.{Fit};
ghost use Rattle.fit.specs.Whole.{Decides, tree_ok, free_count, leaves_from};

use crate::free::chain_fits;
use crate::head::head_fits;
use crate::leaf::leaf_count;
use crate::leaves::leaves;
use crate::lent::Pool;
use nodes::header::read_header;
use nodes::node::NO_NODE;

// One past the last key.
const KEYS_END: u64 = 4294967296;

// How many leaves the tree at this root has, 0 if there is no tree.
#[tactic(auto, using(crate::proofs::LeavesLaws::leaf_counts))]
fn leaves_from(pool: &Pool, root: u32) -> u64
    requires { root < pool.now.nodes }
    ensures { result ≡ leaves_from pool.now.bytes.now pool.now.nodes root }
{
    let n = pool.node(root);
    if n.height == 0 {
        leaf_count(n, 0..KEYS_END)
    } else {
        leaves(pool, root, 0..KEYS_END)
    }
}

// Whether `kept` keys are kept in the tree at `root`, none written after p.
#[tactic(auto, unfolding(crate::specs::Whole::tree_ok))]
fn tree_fits(pool: &Pool, root: u32, kept: u32, p: u32) -> bool
    ensures { result ≡ tree_ok pool.now.bytes.now pool.now.nodes root kept p }
{
    if kept == 0 {
        root == NO_NODE
    } else {
        root < pool.nodes
            && pool.node(root).newest <= p
            && leaves_from(pool, root) == u64::from(kept)
    }
}

// How many nodes are free if `kept` keys are kept.
fn free_count(limit: u32, kept: u32) -> u32
    requires { (kept ≤ limit) × (limit ≤ 65536) }
    ensures { result ≡ free_count limit kept }
{
    if kept == 0 {
        2 * limit
    } else {
        2 * limit + 1 - 2 * kept
    }
}

// Whether the bytes are the image of a state. Any bytes may be lent.
#[tactic(auto, using(crate::proofs::Means::fit_refused, crate::proofs::Means::fit_last))]
pub fn fit(pool: &[u8]) -> bool
    ensures { Decides (Fit pool.now) result }
{
    if pool.len() < 64 || !head_fits(pool) {
        return false;
    }
    let h = read_header(pool);
    let whole = Pool {
        bytes: pool,
        nodes: 2 * h.limit,
    };
    tree_fits(&whole, h.root, h.kept, h.position)
        && chain_fits(&whole, h.free, free_count(h.limit, h.kept))
}
