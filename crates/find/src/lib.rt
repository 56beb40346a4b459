#![tactic(auto)]

// One descent: what a fit pool keeps under a key.
ghost use Rattle.std.specs.Prelude.{◌≡◌, [], ◌∷◌, ◌+◌, ◌-◌, ◌*◌, ◌^◌, ◌≤◌, ◌<◌};
ghost use Rattle.rules.specs.State.{Entry};
ghost use Rattle.rules.specs.Tree.{entries};
ghost use Rattle.pool.specs.Plan.{Plan, tree_in, leaf_node};
ghost use Rattle.pool.specs.Image.{Arrangement, Image, Fit, state_of};
ghost use Rattle.pool.specs.Subtree.{StandsAt, Rooted};
ghost use Rattle.find.specs.Found.{found_in};

use nodes::{NO_NODE, Node, TOMBSTONE, read_header, read_node};

#[derive(Clone, Copy)]
pub enum Found {
    // The key is not kept.
    Absent,
    // A payload and the position of its last committed write.
    Live { payload: u64, position: u32 },
    // The key is kept, and its last committed write was a delete.
    Tombstone { position: u32 },
}

// The least number of an inner node's right half.
fn middle(low: u32, height: u32) -> u64
    requires { (1 ≤ height) × (height ≤ 32) }
    ensures { result ≡ low + 2 ^ (height - 1) }
{
    u64::from(low) + (1u64 << (height - 1))
}

// A payload from its two halves.
fn joined(high: u32, low: u32) -> u64
    ensures { result ≡ high * 2 ^ 32 + low }
{
    u64::from(high) * 4294967296 + u64::from(low)
}

// What leaf n says of the key.
fn at_leaf(n: Node, key: u32) -> Found
    ensures { (e : Entry) → n ≡ leaf_node e.key e.position e.payload → result ≡ found_in key (e ∷ []) }
{
    if n.low != key {
        return Found::Absent;
    }
    if n.kind == TOMBSTONE {
        return Found::Tombstone { position: n.newest };
    }
    Found::Live {
        payload: joined(n.left, n.right),
        position: n.newest,
    }
}

// What the tree at node i says of the key. The tree's height falls with each call.
fn descend(pool: &[u8], i: u32, key: u32) -> Found
    requires { Rooted pool.now i }
    ensures { (T : Plan) → StandsAt pool.now i T → result ≡ found_in key (entries (tree_in T)) }
{
    let n = read_node(pool, i);
    if n.height == 0 {
        return at_leaf(n, key);
    }
    if u64::from(key) < middle(n.low, n.height) {
        return descend(pool, n.left, key);
    }
    descend(pool, n.right, key)
}

// What a fit pool keeps under a key, in one path from the root.
pub fn find(pool: &[u8], key: u32) -> Found
    requires { Fit pool.now }
    ensures { (A : Arrangement) → Image pool.now A → result ≡ found_in key (state_of A).kept }
{
    let root = read_header(pool).root;
    if root == NO_NODE {
        return Found::Absent;
    }
    descend(pool, root, key)
}
