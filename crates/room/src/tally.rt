// How many of the keys that a record puts are not kept, how many are kept as old tombstones, and which of its deletes write: one descent a key.
ghost use Rattle.std.specs.Prelude.{◌≡◌, ◌≤◌, length};
ghost use Rattle.pool.specs.Image.{Arrangement, Image, Fit, state_of};
ghost use Rattle.room.specs.Tally.{one_if_absent, one_if_revived, delete_as, SettledAs, TallyIs, Settles};

use find::{Found, find};
use record::point::{DELETE, PUT, READ};

#[derive(Clone, Copy)]
pub struct Tally {
    // Keys that are not kept.
    pub absent: u32,
    // Keys that are kept as tombstones written at the limit or before.
    pub revived: u32,
}

impl Tally {
    const NONE: Tally = Tally {
        absent: 0,
        revived: 0,
    };
}

// A point, once its key was looked for.
#[derive(Clone, Copy)]
struct Settled {
    // Its kind; a delete that writes nothing is a read from then on.
    kind: u8,
    adds: Tally,
}

// What one put adds.
fn tally_one(found: Found, limit: u32) -> Tally
    ensures { (result.absent ≡ one_if_absent found) × (result.revived ≡ one_if_revived limit found) }
{
    match found {
        Found::Absent => Tally {
            absent: 1,
            ..Tally::NONE
        },
        Found::Tombstone { position } if position <= limit => Tally {
            revived: 1,
            ..Tally::NONE
        },
        Found::Live { .. } | Found::Tombstone { .. } => Tally::NONE,
    }
}

// The kind of a delete, by what is kept under its key: a delete where that is live; else a read, which is passed over.
fn delete_as(found: Found) -> u8
    ensures { result ≡ delete_as found }
{
    match found {
        Found::Live { .. } => DELETE,
        Found::Absent | Found::Tombstone { .. } => READ,
    }
}

// Looks for the key of a put or a delete. A put adds what is kept under it; a delete adds nothing, as it writes only a key that is live.
fn settle_point(pool: &[u8], kind: u8, key: u32, limit: u32) -> Settled
    requires { Fit pool.now }
    ensures { (A : Arrangement) → Image pool.now A → SettledAs kind key limit (state_of A).kept result }
{
    match kind {
        PUT => Settled {
            kind,
            adds: tally_one(find(pool, key), limit),
        },
        DELETE => Settled {
            kind: delete_as(find(pool, key)),
            adds: Tally::NONE,
        },
        _ => Settled {
            kind,
            adds: Tally::NONE,
        },
    }
}

// What all points add. Afterwards the kinds have a read for each delete that writes nothing.
pub fn settle_points(pool: &[u8], kinds: &mut [u8], keys: &[u32], limit: u32) -> Tally
    requires fit { Fit pool.now }
    requires kinds_len { (length kinds.old ≡ length keys.now) × (length keys.now ≤ 1024) }
    ensures tally_is { (A : Arrangement) → Image pool.now A → TallyIs kinds.old keys.now limit (state_of A).kept result }
    ensures settles { Settles pool.now kinds.old keys.now kinds.new }
{
    let mut all = Tally::NONE;
    // The keys by index: a zip over `iter_mut` does not tell a proof which kind was changed.
    for (i, kind) in kinds.iter_mut().enumerate() {
        let settled = settle_point(pool, *kind, keys[i], limit);
        *kind = settled.kind;
        all.absent += settled.adds.absent;
        all.revived += settled.adds.revived;
    }
    all
}
