// A leaf stored in the tree of a pool.
ghost use Rattle.std.specs.Prelude.{◌≡◌, ◌+◌, ◌≤◌, length};
ghost use Rattle.nodes.specs.Nodes.{base};
ghost use Rattle.put.specs.Storing.{covered};
ghost use Rattle.put.specs.Writes.{split_mem};
ghost use Rattle.put.specs.Places.{PutReady, Puts};

use bits::{above, cut, part_height};
use nodes::{Node, inner, mend, read_node, write_node};

// Where the tree's root is afterwards, and whether its key was not there before. The root is there in both cases, so it is no Option.
#[derive(Clone, Copy)]
pub struct AfterPut {
    pub root: u32,
    pub new: bool,
}

// Whether a node at this height from low on covers the key.
fn covers(low: u32, height: u32, key: u32) -> bool
    requires { height ≤ 32 }
    ensures { result ≡ covered low height key }
{
    low <= key && above(key - low, height) == 0
}

// The leaf as node b, and a new inner node a above it and node i, which holds n, where the two part.
fn split(pool: &mut [u8], i: u32, n: Node, leaf: Node, a: u32, b: u32)
    requires { (base a + 32 ≤ length pool.old) × (base b + 32 ≤ length pool.old) }
    ensures { pool.new ≡ split_mem pool.old i n leaf a b }
{
    write_node(pool, b, leaf);
    let height = part_height(n.low, leaf.low);
    let low = cut(leaf.low, height);
    let newest = leaf.newest.max(n.newest);
    let oldest = leaf.oldest.min(n.oldest);
    if leaf.low < n.low {
        write_node(pool, a, inner(height, low, newest, oldest, b, i));
    } else {
        write_node(pool, a, inner(height, low, newest, oldest, i, b));
    }
}

// Stores the leaf in the tree at node i; a and b are the nodes that a new key takes.
pub fn put_at(pool: &mut [u8], i: u32, leaf: Node, a: u32, b: u32) -> AfterPut
    requires { PutReady pool.old i leaf a b }
    ensures { Puts pool.old i leaf a b pool.new result }
{
    let n = read_node(pool, i);
    if covers(n.low, n.height, leaf.low) {
        if n.height == 0 {
            write_node(pool, i, leaf);
            return AfterPut {
                root: i,
                new: false,
            };
        }
        if covers(n.low, n.height - 1, leaf.low) {
            let under = put_at(pool, n.left, leaf, a, b);
            mend(pool, i, n.height, n.low, under.root, n.right);
            return AfterPut {
                root: i,
                new: under.new,
            };
        }
        let under = put_at(pool, n.right, leaf, a, b);
        mend(pool, i, n.height, n.low, n.left, under.root);
        return AfterPut {
            root: i,
            new: under.new,
        };
    }
    split(pool, i, n, leaf, a, b);
    AfterPut { root: a, new: true }
}
