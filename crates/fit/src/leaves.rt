// The tree below a node. Each inner node calls itself on its inner children: what it covers halves at each level.
ghost use Rattle.std.specs.Prelude.{◌≡◌, ℕ, ◌-◌, ◌^◌, ◌≤◌, ◌<◌};
ghost use Rattle.nodes.specs.Nodes.{node_at};
ghost use Rattle.fit.specs.Check.{leaves_at};

use crate::inner::{inner_fits, size_of};
use crate::leaf::leaf_count;
use crate::lent::Pool;
use std::ops::Range;

// How many leaves the tree at inner node i has, whose keys are among these; 0 if there is no such tree, and no Option, which is returned
// through memory: the whole check would take 13 % more instructions.
#[tactic(auto, using(crate::proofs::LeavesLaws::passed, crate::proofs::LeavesLaws::passed_height, crate::proofs::LeavesLaws::refused))]
pub fn leaves(pool: &Pool, i: u32, keys: Range<u64>) -> u64
    requires { (i < pool.now.nodes) × ((node_at pool.now.bytes.now i).height ≡ 0 → ⊥) × (keys.end ≤ 2 ^ 32) }
    ensures { (g : ℕ) → keys.end - keys.start < 2 ^ g → result ≡ leaves_at pool.now.bytes.now pool.now.nodes g i keys.start keys.end }
{
    if !inner_fits(pool, i, &keys) {
        return 0;
    }
    let n = pool.node(i);
    let low = u64::from(n.low);
    let size = size_of(n.height);
    let middle = low + size / 2;
    let l = pool.node(n.left);
    let left = if l.height == 0 {
        leaf_count(l, low..middle)
    } else {
        leaves(pool, n.left, low..middle)
    };
    if left == 0 {
        return 0;
    }
    let r = pool.node(n.right);
    let right = if r.height == 0 {
        leaf_count(r, middle..low + size)
    } else {
        leaves(pool, n.right, middle..low + size)
    };
    if right == 0 {
        return 0;
    }
    left + right
}
