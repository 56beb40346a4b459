// Looking up one key.
ghost use Rattle.std.specs.Prelude.{◌≡◌};
ghost use Rattle.find.specs.Found.{seen_as};
ghost use Rattle.meld.specs.Lookups.{LooksUp, lookup_of};

use crate::kept::Lookup;
use find::{Found, find};
use fit::fit;

// What a fit pool's state holds under a key.
impl From<Found> for Lookup {
    ghost from_gives = { λ found lookup. lookup ≡ lookup_of (seen_as found) };

    fn from(found: Found) -> Lookup {
        match found {
            Found::Absent => Lookup::Absent,
            Found::Tombstone { position: _ } => Lookup::Absent,
            Found::Live { payload, position } => Lookup::Found { payload, position },
        }
    }
}

// What is kept under a key; any bytes may be lent as a pool, which is only read.
pub fn lookup(pool: &[u8], key: u32) -> Lookup
    ensures { LooksUp pool.now key result }
{
    if !fit(pool) {
        return Lookup::Unfit;
    }
    Lookup::from(find(pool, key))
}
