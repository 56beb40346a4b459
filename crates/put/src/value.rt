// What a put or a delete stores for a key.
ghost use Rattle.std.specs.Prelude.{◌≡◌};
ghost use Rattle.std.proofs.Math.Option.{none, some};
ghost use Rattle.pool.specs.Plan.{leaf_node};
ghost use Rattle.put.specs.Asks.{LeafOf};

use nodes::{NO_TOMBSTONE, Node};

// A leaf with a payload.
fn live(key: u32, position: u32, payload: u64) -> Node
    ensures { result ≡ leaf_node key position (some payload) }
{
    Node {
        height: 0,
        low: key,
        newest: position,
        oldest: NO_TOMBSTONE,
        left: (payload / 4294967296) as u32,
        right: (payload % 4294967296) as u32,
        kind: 1,
        spare: 0,
    }
}

// A tombstone's leaf, deleted at position `since`.
fn tombstone(key: u32, since: u32) -> Node
    ensures { result ≡ leaf_node key since none }
{
    Node {
        height: 0,
        low: key,
        newest: since,
        oldest: since,
        left: 0,
        right: 0,
        kind: 2,
        spare: 0,
    }
}

// The leaf of a put's payload, or of a delete if there is none.
pub fn leaf_of(key: u32, position: u32, payload: Option<u64>) -> Node
    ensures { LeafOf key position payload result }
{
    match payload {
        Some(payload) => live(key, position, payload),
        None => tombstone(key, position),
    }
}
