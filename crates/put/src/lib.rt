#![tactic(auto)]

// Storing an entry in a fit pool, in place: one descent, at most two free nodes taken, newest and oldest mended on the way back.
mod tree;
mod value;

ghost use Rattle.std.specs.Prelude.{◌≡◌, ◌+◌, ◌≤◌, ◌<◌, length};
ghost use Rattle.nodes.specs.Nodes.{base};
ghost use Rattle.pool.specs.Plan.{no_node};
ghost use Rattle.pool.specs.Image.{Arrangement, Image};
ghost use Rattle.put.specs.Values.{entry_of};
ghost use Rattle.put.specs.Storing.{put_in};
ghost use Rattle.put.specs.Asks.{Roomy, next_of, grown};

use nodes::{Header, NO_NODE, read_header, read_node, write_header, write_node};
use tree::put_at;
use value::leaf_of;

// The free node behind node i, none behind none.
fn next_free(pool: &[u8], i: u32) -> u32
    requires { (i ≡ no_node → ⊥) → base i + 32 ≤ length pool.now }
    ensures { result ≡ next_of pool.now i }
{
    if i == NO_NODE {
        return NO_NODE;
    }
    let n = read_node(pool, i);
    n.low
}

// The header with one more key kept.
fn with_key(header: Header, root: u32, free: u32) -> Header
    requires { header.kept < 65536 }
    ensures { result ≡ grown header root free }
{
    Header {
        kept: header.kept + 1,
        root,
        free,
        ..header
    }
}

// Stores the payload for the key, or a tombstone if there is none, at the pool's position, instead of what was stored for the key.
pub fn put(pool: &mut [u8], key: u32, payload: Option<u64>)
    requires { Roomy pool.old key payload }
    ensures { (A : Arrangement) → Image pool.old A → Image pool.new (put_in A (entry_of key A.p payload)) }
{
    let header = read_header(pool);
    let leaf = leaf_of(key, header.position, payload);
    let first = header.free;
    let second = next_free(pool, first);
    if header.root == NO_NODE {
        write_node(pool, first, leaf);
        write_header(pool, with_key(header, first, second));
        return;
    }
    let third = next_free(pool, second);
    let after = put_at(pool, header.root, leaf, first, second);
    if after.new {
        write_header(pool, with_key(header, after.root, third));
    }
}
