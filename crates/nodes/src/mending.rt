// Inner nodes: they stand above two others and carry up what is newest and oldest below.
ghost use Rattle.std.specs.Prelude.{◌≡◌, ◌+◌, ◌≤◌, length};
ghost use Rattle.nodes.specs.Nodes.{base, inner_node};
ghost use Rattle.nodes.specs.Mended.{mended};

use crate::node::{Node, read_node, write_node};

// An inner node.
pub fn inner(height: u32, low: u32, newest: u32, oldest: u32, left: u32, right: u32) -> Node
    ensures { result ≡ inner_node height low newest oldest left right }
{
    Node {
        height,
        low,
        newest,
        oldest,
        left,
        right,
        kind: 0,
        spare: 0,
    }
}

// Node i stands above its two children as they are now, with their newest and oldest carried up.
pub fn mend(pool: &mut [u8], i: u32, height: u32, low: u32, left: u32, right: u32)
    requires { (base i + 32 ≤ length pool.old) × (base left + 32 ≤ length pool.old) × (base right + 32 ≤ length pool.old) }
    ensures { pool.new ≡ mended pool.old i height low left right }
{
    let l = read_node(pool, left);
    let r = read_node(pool, right);
    let newest = l.newest.max(r.newest);
    let oldest = l.oldest.min(r.oldest);
    write_node(pool, i, inner(height, low, newest, oldest, left, right));
}
