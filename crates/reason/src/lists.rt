// The reason of a record's answer, from its lists.
ghost use Rattle.std.specs.Prelude.{◌≡◌};
ghost use Rattle.reason.specs.Steps.{plainly, Explainable, ExplainsLists};

use crate::blame::blame;
use crate::told::{Explained, Reason};
use conflict_search::Footprint;
use judge::{Judged, Named, judge_and_name};
use nodes::read_header;
use record::Answer;
use room::{Room, room_for};

// An answer that says it all.
pub fn plain(answer: Answer, looks: u32) -> Explained
    ensures { result ≡ plainly answer looks }
{
    Explained {
        answer,
        looks,
        reason: Reason::Nothing,
    }
}

// Explains a well-formed record, given as its lists, to a fit pool that has a position left: 5, 2, 1, 3 or 0. The search is made once, and names the
// leaf of the smallest key in conflict. What the kinds hold afterwards means nothing.
pub fn explain_lists(
    pool: &[u8],
    snapshot: u32,
    kinds: &mut [u8],
    keys: &[u32],
    lows: &[u32],
    highs: &[u32],
) -> Explained
    requires { Explainable pool.now snapshot kinds.old keys.now lows.now highs.now }
    ensures { ExplainsLists pool.now snapshot kinds.old keys.now lows.now highs.now result }
{
    let Named { judged, leaf } = judge_and_name(pool, snapshot, &Footprint { keys, lows, highs });
    let Judged { answer, looks } = judged;
    if let Some(leaf) = leaf {
        return Explained {
            answer,
            looks,
            reason: blame(pool, leaf, keys, highs),
        };
    }
    if answer == Answer::TOO_OLD {
        let lag = read_header(pool).position - snapshot;
        return Explained {
            answer,
            looks,
            reason: Reason::TooOld { lag },
        };
    }
    if answer != Answer::COMMITTED {
        return plain(answer, looks);
    }
    match room_for(pool, kinds, keys) {
        Room::TooLittle { keys } => Explained {
            answer: Answer::NO_ROOM,
            looks,
            reason: Reason::NoRoom { keys },
        },
        Room::AfterDrop => plain(answer, looks),
        Room::Enough => plain(answer, looks),
    }
}
