// A record's verdict, from its lists.
ghost use Rattle.std.specs.Prelude.{◌≡◌};
ghost use Rattle.meld.specs.Lists.{Meldable, MeldsLists};

use crate::melding::Melded;
use advance::advance;
use commit::{commit_after_drop, commit_writes};
use conflict_search::Footprint;
use judge::{Judged, judge};
use record::Answer;
use room::{Room, room_for};

// Melds a well-formed record, given as its lists, into a fit pool that has a position left: 5, 2, 1, 3 or 0. What the
// kinds hold afterwards means nothing.
pub fn meld_lists(
    pool: &mut [u8],
    snapshot: u32,
    kinds: &mut [u8],
    keys: &[u32],
    payloads: &[u64],
    lows: &[u32],
    highs: &[u32],
) -> Melded
    requires { Meldable pool.old snapshot kinds.old keys.now payloads.now lows.now highs.now }
    ensures { MeldsLists pool.old snapshot kinds.old keys.now payloads.now lows.now highs.now pool.new result }
{
    let Judged { answer, looks } = judge(pool, snapshot, &Footprint { keys, lows, highs });
    if answer != Answer::COMMITTED {
        advance(pool);
        return Melded { answer, looks };
    }
    let answer = match room_for(pool, kinds, keys) {
        Room::TooLittle { keys: _ } => {
            advance(pool);
            Answer::NO_ROOM
        }
        Room::AfterDrop => {
            commit_after_drop(pool, kinds, keys, payloads);
            Answer::COMMITTED
        }
        Room::Enough => {
            commit_writes(pool, kinds, keys, payloads);
            Answer::COMMITTED
        }
    };
    Melded { answer, looks }
}
