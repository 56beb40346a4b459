// The two ways to commit: with nothing dropped, and with the old tombstones dropped first.
ghost use Rattle.std.specs.Prelude.{◌≡◌, ◌-◌};
ghost use Rattle.pool.specs.Image.{Arrangement, Image};
ghost use Rattle.commit.specs.Commit.{Committable, all_kept, not_old, commit_in, commit_lean};

use crate::apply::apply;
use advance::advance;
use drop::drop_old;
use nodes::read_header;

// The last position whose tombstones are old at position v: v - Z, or 0 where none can be old.
fn old_at(v: u32, zone: u32) -> u32
    ensures { result ≡ v - zone }
{
    v.saturating_sub(zone)
}

// Moves the position on and stores the writes there.
pub fn commit_writes(pool: &mut [u8], kinds: &[u8], keys: &[u32], payloads: &[u64])
    requires { Committable pool.old kinds.now keys.now payloads.now all_kept }
    ensures { (A : Arrangement) → Image pool.old A → Image pool.new (commit_in kinds.now keys.now payloads.now A) }
{
    advance(pool);
    apply(pool, kinds, keys, payloads);
}

// Moves the position on, drops the old tombstones and stores the writes.
pub fn commit_after_drop(pool: &mut [u8], kinds: &[u8], keys: &[u32], payloads: &[u64])
    requires { Committable pool.old kinds.now keys.now payloads.now not_old }
    ensures { (A : Arrangement) → Image pool.old A → Image pool.new (commit_lean kinds.now keys.now payloads.now A) }
{
    advance(pool);
    let h = read_header(pool);
    drop_old(pool, old_at(h.position, h.zone));
    apply(pool, kinds, keys, payloads);
}
