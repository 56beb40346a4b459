// Applying a record's points to a fit pool.
ghost use Rattle.std.specs.Prelude.{◌≡◌, length};
ghost use Rattle.pool.specs.Image.{Arrangement, Image};
ghost use Rattle.commit.specs.Applied.{point_from, value_of, Applicable, Applies};

use put::put;
use record::Point;
use record::point::{DELETE, PUT};

// The point that a kind, a key and a payload name: 2 is a put, 3 a delete, and anything else is passed over like a read.
fn point_of(kind: u8, key: u32, payload: u64) -> Point
    ensures { result ≡ point_from kind key payload }
{
    match kind {
        PUT => Point::Put(key, payload),
        DELETE => Point::Delete(key),
        _ => Point::Read(key),
    }
}

// What a point stores: a put its payload, a delete a tombstone.
fn value_of(point: Point) -> Option<u64>
    ensures { result ≡ value_of point }
{
    match point {
        Point::Put(_, payload) => Some(payload),
        Point::Read(_) | Point::Delete(_) => None,
    }
}

// Stores the puts and deletes among the points at the pool's position; anything else is passed over.
pub fn apply(pool: &mut [u8], kinds: &[u8], keys: &[u32], payloads: &[u64])
    requires { Applicable pool.old kinds.now keys.now payloads.now }
    ensures { Applies pool.old kinds.now keys.now payloads.now pool.new }
{
    for i in 0..keys.len() {
        let point = point_of(kinds[i], keys[i], payloads[i]);
        // A `let .. else`, as the table of forms in docs/DECISIONS.md has it.
        let (Point::Put(key, _) | Point::Delete(key)) = point else {
            continue;
        };
        put(pool, key, value_of(point));
    }
}
