#![tactic(auto)]

// FOR C AND RUST: the functions of `abi`, each under its own name in the archive, with the same promises. The last five need no pool; `record_abi_c`
// exports them alone.
ghost use Rattle.record.specs.Reader.{lists};
ghost use Rattle.record_abi.specs.Numbers.{answer, reading, sized, found};
ghost use Rattle.record_abi.specs.Told.{ChecksAs, ReadsInNumbers, WritesInNumbers, JoinsInNumbers, CutsAs};
ghost use Rattle.create.specs.Fresh.{Created};
ghost use Rattle.refresh.specs.Refreshed.{RefreshIs};
ghost use Rattle.meld.specs.Melds.{Melds};
ghost use Rattle.abi.specs.Numbers.{melded, looked_up, status_from, fed_numbers, explained_numbers};
ghost use Rattle.abi.specs.Told.{StatusInNumbers, LooksUpAs, InForceAs, FeedsInNumbers, ExplainsInNumbers};

// Creates a pool with limits n and z in the bytes lent: 0, or 9 and no byte changes.
#[unsafe(no_mangle)]
pub extern "C" fn emuparasol_create(pool: &mut [u8], n: u32, z: u32) -> u8
    ensures { Created pool.old n z (answer result) pool.new }
{
    abi::emuparasol_create(pool, n, z)
}

// What a pool says of itself: 7 for an unfit pool, else 0; its limits, its position, how many keys it keeps and how many of these are tombstones,
// all five 0 with 7.
#[unsafe(no_mangle)]
pub extern "C" fn emuparasol_status(
    pool: &[u8],
    n: &mut u32,
    z: &mut u32,
    position: &mut u32,
    kept: &mut u32,
    tombstones: &mut u32,
) -> u8
    ensures { StatusInNumbers pool.now
        (status_from result n.new z.new position.new kept.new tombstones.new) }
{
    abi::emuparasol_status(pool, n, z, position, kept, tombstones)
}

// What is kept under a key: 7 for an unfit pool, else 0; payload and position of the last committed write, both 0 where there is none.
#[unsafe(no_mangle)]
pub extern "C" fn emuparasol_lookup(
    pool: &[u8],
    key: u32,
    payload: &mut u64,
    position: &mut u32,
) -> u8
    ensures { LooksUpAs pool.now key (looked_up result payload.new position.new) }
{
    abi::emuparasol_lookup(pool, key, payload, position)
}

// Melds a record into a pool: 7, 6, 4, 5, 2, 1, 3 or 0, and the looks.
#[unsafe(no_mangle)]
pub extern "C" fn emuparasol_meld(pool: &mut [u8], record: &[u8], looks: &mut u32) -> u8
    ensures { Melds pool.old «record».now pool.new (melded result looks.new) }
{
    abi::emuparasol_meld(pool, record, looks)
}

// Takes the next part of a log and decides one record at most, once its last byte is in. What happened is told by a number of its own; the answer's
// number is 0 where there is none. How many bytes are carried is read and set.
#[unsafe(no_mangle)]
pub extern "C" fn emuparasol_feed(
    pool: &mut [u8],
    carry: &mut [u8],
    carried: &mut usize,
    part: &[u8],
    over: bool,
    happened: &mut u8,
    looks: &mut u32,
    taken: &mut usize,
) -> u8
    ensures { FeedsInNumbers pool.old carry.old carried.old part.now over
        (fed_numbers happened.new result looks.new taken.new carried.new) pool.new carry.new }
{
    abi::emuparasol_feed(pool, carry, carried, part, over, happened, looks, taken)
}

// Why melding a record would answer so: 7, 6, 4, 5, 2, 1, 3 or 0 with the looks, as a meld, and the six numbers of the reason, each 0 where it does
// not tell it.
#[unsafe(no_mangle)]
pub extern "C" fn emuparasol_explain(
    pool: &[u8],
    record: &[u8],
    looks: &mut u32,
    key: &mut u32,
    position: &mut u32,
    point: &mut usize,
    scan: &mut usize,
    lag: &mut u32,
    keys: &mut u32,
) -> u8
    ensures { ExplainsInNumbers pool.now «record».now
        (explained_numbers result looks.new key.new position.new point.new scan.new lag.new
        keys.new) }
{
    abi::emuparasol_explain(pool, record, looks, key, position, point, scan, lag, keys)
}

// Puts the record with the pool's position as snapshot at the front of the output: 7, 4, 5, 2, 1, 8 or 0.
#[unsafe(no_mangle)]
pub extern "C" fn emuparasol_refresh(pool: &[u8], original: &[u8], output: &mut [u8]) -> u8
    ensures { RefreshIs pool.now original.now output.old (answer result) output.new }
{
    abi::emuparasol_refresh(pool, original, output)
}

// Where the record in force lies after a refresh's answer: true in `refreshed`, false in `original`, from the offset on and so long.
#[unsafe(no_mangle)]
pub extern "C" fn emuparasol_in_force<'a>(
    answer: u8,
    original: &'a [u8],
    refreshed: &'a [u8],
    offset: &mut usize,
    length: &mut usize,
) -> bool
    ensures { InForceAs answer original.now refreshed.now result offset.new length.new }
{
    abi::emuparasol_in_force(answer, original, refreshed, offset, length)
}

// 0 where the bytes lent are exactly one well-formed record, else 4.
#[unsafe(no_mangle)]
pub extern "C" fn emuparasol_check(record: &[u8]) -> u8
    ensures { ChecksAs «record».now result }
{
    abi::emuparasol_check(record)
}

// Reads a record into the fronts of the lists: 4, 8 or 0, with the snapshot and both counts, all three 0 on a refusal.
#[unsafe(no_mangle)]
pub extern "C" fn emuparasol_read(
    record: &[u8],
    kinds: &mut [u8],
    keys: &mut [u32],
    payloads: &mut [u64],
    lows: &mut [u32],
    highs: &mut [u32],
    snapshot: &mut u32,
    points: &mut usize,
    scans: &mut usize,
) -> u8
    ensures { ReadsInNumbers «record».now
        (lists kinds.old keys.old payloads.old lows.old highs.old)
        (reading result snapshot.new points.new scans.new)
        (lists kinds.new keys.new payloads.new lows.new highs.new) }
{
    abi::emuparasol_read(
        record, kinds, keys, payloads, lows, highs, snapshot, points, scans,
    )
}

// Writes the record that the lists name to the front of the output: 4, 8 or 0, with its size, 0 on a refusal.
#[unsafe(no_mangle)]
pub extern "C" fn emuparasol_write(
    snapshot: u32,
    kinds: &[u8],
    keys: &[u32],
    payloads: &[u64],
    lows: &[u32],
    highs: &[u32],
    output: &mut [u8],
    size: &mut usize,
) -> u8
    ensures { WritesInNumbers snapshot
        (lists kinds.now keys.now payloads.now lows.now highs.now)
        output.old (sized result size.new) output.new }
{
    abi::emuparasol_write(snapshot, kinds, keys, payloads, lows, highs, output, size)
}

// Joins two records, meant for one position and the next, into one at the front of the output: 12, 8 or 0, with its size, 0 on a refusal.
#[unsafe(no_mangle)]
pub extern "C" fn emuparasol_join(a: &[u8], b: &[u8], output: &mut [u8], size: &mut usize) -> u8
    ensures { JoinsInNumbers a.now b.now output.old (sized result size.new) output.new }
{
    abi::emuparasol_join(a, b, output, size)
}

// What stands at a place of a log: 10 for a torn log and 11 for an impossible length, both with the same place; else 0, with the place past the
// record, or the same place at the end.
#[unsafe(no_mangle)]
pub extern "C" fn emuparasol_cut(log: &[u8], place: usize, next: &mut usize) -> u8
    ensures { CutsAs log.now place (found result next.new) }
{
    abi::emuparasol_cut(log, place, next)
}
