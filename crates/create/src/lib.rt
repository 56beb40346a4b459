#![tactic(auto)]

// A NEW POOL: every node free, in the order of the numbers, position 0 and no key.
ghost use Rattle.std.specs.Prelude.{◌≡◌, ◌+◌, ◌-◌, ◌*◌, ◌≤◌, ◌<◌, length};
ghost use Rattle.words.specs.Word.{Bytes};
ghost use Rattle.pool.specs.Plan.{free_node};
ghost use Rattle.create.specs.Fresh.{limits_ok, Created};
ghost use Rattle.create.specs.Steps.{next_free, FreedBefore, Cleared};

use nodes::{FREE, Header, NO_NODE, Node, write_header, write_node};
use record::answer::Answer;

// Whether the limits are in their ranges and a pool for them has this size.
#[tactic(auto, unfolding(crate::specs::Fresh::limits_ok))]
fn limits_hold(n: u32, z: u32, size: usize) -> bool
    ensures { result ≡ limits_ok n z size }
{
    (1..=65536).contains(&n) && (1..=4096).contains(&z) && size == 64 + 64 * (n as usize)
}

// Free node i of so many: its next is the node behind it, its rank how many there are from it on.
fn free_node(i: u32, nodes: u32) -> Node
    requires { i < nodes }
    ensures { result ≡ free_node (next_free nodes i) (nodes - i) }
{
    let behind = nodes - 1 - i;
    let next = if behind == 0 { NO_NODE } else { i + 1 };
    Node {
        height: FREE,
        low: next,
        newest: behind + 1,
        oldest: 0,
        left: 0,
        right: 0,
        kind: 0,
        spare: 0,
    }
}

// Makes all nodes free.
fn free_all(pool: &mut [u8], nodes: u32)
    requires { (64 + 32 * nodes ≤ length pool.old) × (nodes ≤ 131072) }
    ensures { FreedBefore nodes nodes pool.old pool.new }
{
    for i in 0..nodes {
        write_node(pool, i, free_node(i, nodes));
    }
}

// Clears the header's last bytes.
fn clear(pool: &mut [u8])
    requires { (64 ≤ length pool.old) × Bytes pool.old }
    ensures { Cleared 64 pool.old pool.new }
{
    for at in 28..64 {
        pool[at] = 0;
    }
}

// Creates a pool with limits N and Z in the bytes lent: 0 and every byte is fixed; or 9 for limits out of range or a pool that is not
// exactly 64 + 64·N bytes, and the bytes are as they were.
pub fn create(pool: &mut [u8], n: u32, z: u32) -> Answer
    ensures { Created pool.old n z result pool.new }
{
    if !limits_hold(n, z, pool.len()) {
        return Answer::BAD_LIMITS;
    }
    free_all(pool, 2 * n);
    clear(pool);
    let header = Header {
        mark: Header::MARK,
        limit: n,
        zone: z,
        position: 0,
        kept: 0,
        root: NO_NODE,
        free: 0,
    };
    write_header(pool, header);
    Answer::COMMITTED
}
