// How many kept tombstones are old, up to a number that is enough. Only subtrees that hold one are entered, and none once there are enough.
ghost use Rattle.std.specs.Prelude.{◌≡◌, ◌≤◌, length};
ghost use Rattle.rules.specs.Lists.{keep};
ghost use Rattle.pool.specs.Image.{Arrangement, Image, Fit, state_of};
ghost use Rattle.drop.specs.Old.{old};
ghost use Rattle.drop.specs.Spot.{Standing, UpTo, Counted};

use nodes::{NO_NODE, read_header, read_node};

// The old tombstones in the tree at node i, or most where there are more.
fn count_below(pool: &[u8], i: u32, limit: u32, most: u32) -> u32
    requires standing { Standing pool.now i }
    requires le_most { 1 ≤ most }
    ensures { Counted pool.now i limit most result }
{
    let n = read_node(pool, i);
    // The kind is a word of the layout: 1 in a live leaf, 2 in a tombstone.
    if limit < n.oldest || n.kind == 1 {
        return 0;
    }
    if n.kind == 2 {
        return 1;
    }
    let a = count_below(pool, n.left, limit, most);
    if most <= a {
        return a;
    }
    a + count_below(pool, n.right, limit, most - a)
}

// How many kept tombstones of a fit pool have a position of at most limit, or most where there are more.
pub fn count_old(pool: &[u8], limit: u32, most: u32) -> u32
    requires fit { Fit pool.now }
    requires le_most { 1 ≤ most }
    ensures { (A : Arrangement) → Image pool.now A → UpTo most (length (keep (old limit) (state_of A).kept)) result }
{
    let h = read_header(pool);
    if h.root == NO_NODE {
        return 0;
    }
    count_below(pool, h.root, limit, most)
}
