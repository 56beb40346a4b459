// Whether a record's writes find room.
ghost use Rattle.std.specs.Prelude.{◌≡◌, ◌≤◌};
ghost use Rattle.pool.specs.Image.{Fit};
ghost use Rattle.room.specs.Tally.{Settles};
ghost use Rattle.room.specs.Room.{old_limit, Writable, RoomIs};

use crate::tally::settle_points;
use drop::count_old;
use nodes::read_header;

#[derive(Clone, Copy)]
pub enum Room {
    // The kept keys and the keys written are together at most N: nothing is dropped.
    Enough,
    // They are more, but without the old tombstones they are at most N.
    AfterDrop,
    // They are more even so: how many keys would have to find room.
    TooLittle { keys: u32 },
}

// The last position whose tombstones are old for the next record: v - Z, or 0 where none can be old.
pub fn old_limit(position: u32, zone: u32) -> u32
    requires { position ≤ 4294967294 }
    ensures { result ≡ old_limit position zone }
{
    (position + 1).saturating_sub(zone)
}

// What there is room for in a fit pool. Old tombstones are counted only if the kept and the written keys pass N, and only up to as many as must go:
// where there is no room there are fewer, and all of them are counted. The search that counts a key also tells whether its delete writes: afterwards the
// kinds have a read for each delete of a key that is not live, so that nobody has to search again.
pub fn room_for(pool: &[u8], kinds: &mut [u8], keys: &[u32]) -> Room
    requires fit { Fit pool.now }
    requires writable { Writable pool.now kinds.old keys.now }
    ensures room_is { RoomIs pool.now kinds.old keys.now result }
    ensures settles { Settles pool.now kinds.old keys.now kinds.new }
{
    let h = read_header(pool);
    let limit = old_limit(h.position, h.zone);
    let written = settle_points(pool, kinds, keys, limit);
    let all = h.kept + written.absent;
    if all <= h.limit {
        return Room::Enough;
    }
    let more = all + written.revived;
    let needed = more - h.limit;
    let old = count_old(pool, limit, needed);
    if needed <= old {
        return Room::AfterDrop;
    }
    Room::TooLittle { keys: more - old }
}
