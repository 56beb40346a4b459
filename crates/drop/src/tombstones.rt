// Old tombstones are dropped in place. Only subtrees that hold one are entered; a node that is left with one child gives way to it;
// nodes that are no longer needed come to the front of the free nodes.
ghost use Rattle.std.specs.Prelude.{◌≡◌, ◌+◌, ◌-◌, ◌*◌, ◌/◌, ◌^◌, ◌≤◌, ◌<◌, length};
ghost use Rattle.nodes.specs.Nodes.{base};
ghost use Rattle.pool.specs.Image.{Arrangement, Image, Fit};
ghost use Rattle.drop.specs.Drop.{drop_in};
ghost use Rattle.drop.specs.Spot.{FreedNode, DropReady, Drops};

use nodes::{FREE, Header, NO_NODE, Node, mend, read_header, read_node, write_header, write_node};

// The free nodes: the first one's number, and how many there are.
#[derive(Clone, Copy)]
pub struct FreeNodes {
    pub first: u32,
    pub count: u32,
}

// What is left of a tree: its root's number, none if nothing is left; and the free nodes then.
#[derive(Clone, Copy)]
pub struct Left {
    pub root: Option<u32>,
    pub free: FreeNodes,
}

// Node i comes to the front of the free nodes.
fn free_node(pool: &mut [u8], i: u32, free: FreeNodes) -> FreeNodes
    requires { (base i + 32 ≤ length pool.old) × (free.count + 1 < 2 ^ 32) }
    ensures { FreedNode pool.old i free pool.new result }
{
    let count = free.count + 1;
    write_node(
        pool,
        i,
        Node {
            height: FREE,
            low: free.first,
            newest: count,
            oldest: 0,
            left: 0,
            right: 0,
            kind: 0,
            spare: 0,
        },
    );
    FreeNodes { first: i, count }
}

// Drops the old tombstones of the tree at node i.
fn drop_below(pool: &mut [u8], i: u32, limit: u32, free: FreeNodes) -> Left
    requires { DropReady pool.old i free }
    ensures { Drops pool.old i limit free pool.new result }
{
    let n = read_node(pool, i);
    // The kind is a word of the layout: 1 in a live leaf, 2 in a tombstone.
    if limit < n.oldest || n.kind == 1 {
        return Left {
            root: Some(i),
            free,
        };
    }
    if n.kind == 2 {
        return Left {
            root: None,
            free: free_node(pool, i, free),
        };
    }
    let a = drop_below(pool, n.left, limit, free);
    let b = drop_below(pool, n.right, limit, a.free);
    let Some(left) = a.root else {
        return Left {
            root: b.root,
            free: free_node(pool, i, b.free),
        };
    };
    let Some(right) = b.root else {
        return Left {
            root: a.root,
            free: free_node(pool, i, b.free),
        };
    };
    mend(pool, i, n.height, n.low, left, right);
    Left {
        root: Some(i),
        free: b.free,
    }
}

// How many keys there are beside so many free nodes: n keys take 2 * n - 1 of the 2 * limit nodes.
fn keys_beside(limit: u32, rank: u32) -> u32
    requires { (limit ≤ 65536) × (rank ≤ 2 * limit) }
    ensures { result ≡ (2 * limit + 1 - rank) / 2 }
{
    (2 * limit + 1 - rank) / 2
}

// Drops every kept tombstone of a fit pool that has a position of at most limit.
pub fn drop_old(pool: &mut [u8], limit: u32)
    requires { Fit pool.old }
    ensures { (A : Arrangement) → Image pool.old A → Image pool.new (drop_in limit A) }
{
    let h = read_header(pool);
    if h.root == NO_NODE {
        return;
    }
    let first = read_node(pool, h.free);
    let free = FreeNodes {
        first: h.free,
        count: first.newest,
    };
    let after = drop_below(pool, h.root, limit, free);
    write_header(
        pool,
        Header {
            kept: keys_beside(h.limit, after.free.count),
            root: after.root.unwrap_or(NO_NODE),
            free: after.free.first,
            ..h
        },
    );
}
