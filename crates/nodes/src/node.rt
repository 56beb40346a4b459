// A node is eight words, whatever it is used for: a leaf, an inner node or a free one.
ghost use Rattle.std.specs.Prelude.{◌≡◌, ◌+◌, ◌≤◌, length};
ghost use Rattle.nodes.specs.Nodes.{base, node_at, put_node};

use words::{put4, word4};

// The number that names no node.
pub const NO_NODE: u32 = 4294967295;

// The height of a free node.
pub const FREE: u32 = 4294967295;

// The kinds of a leaf.
pub const LIVE: u32 = 1;

pub const TOMBSTONE: u32 = 2;

// The oldest of a node without a tombstone at or below.
pub const NO_TOMBSTONE: u32 = 4294967295;

// Plain numbers, none of them an enum or an Option: a node is read from any bytes, and its words may be any numbers until they are checked.
#[derive(Clone, Copy)]
pub struct Node {
    // 0 in a leaf; 1 to 32 in an inner node, which splits at bit height - 1; FREE in a free node.
    pub height: u32,
    // A leaf's key; the least number that an inner node covers; the next free node.
    pub low: u32,
    // The largest write position at or below; a free node's rank.
    pub newest: u32,
    // The smallest position of a tombstone at or below, NO_TOMBSTONE if there is none.
    pub oldest: u32,
    // A leaf's payload, upper half; the left child's number.
    pub left: u32,
    // A leaf's payload, lower half; the right child's number.
    pub right: u32,
    // LIVE or TOMBSTONE in a leaf, 0 in any other node.
    pub kind: u32,
    // 0.
    pub spare: u32,
}

// Node i of the pool.
pub fn read_node(pool: &[u8], i: u32) -> Node
    requires { base i + 32 ≤ length pool.now }
    ensures { result ≡ node_at pool.now i }
{
    let b = 64 + 32 * (i as usize);
    Node {
        height: word4(pool, b),
        low: word4(pool, b + 4),
        newest: word4(pool, b + 8),
        oldest: word4(pool, b + 12),
        left: word4(pool, b + 16),
        right: word4(pool, b + 20),
        kind: word4(pool, b + 24),
        spare: word4(pool, b + 28),
    }
}

// Stores n as node i.
pub fn write_node(pool: &mut [u8], i: u32, n: Node)
    requires { base i + 32 ≤ length pool.old }
    ensures { pool.new ≡ put_node pool.old i n }
{
    let b = 64 + 32 * (i as usize);
    put4(pool, b, n.height);
    put4(pool, b + 4, n.low);
    put4(pool, b + 8, n.newest);
    put4(pool, b + 12, n.oldest);
    put4(pool, b + 16, n.left);
    put4(pool, b + 20, n.right);
    put4(pool, b + 24, n.kind);
    put4(pool, b + 28, n.spare);
}
