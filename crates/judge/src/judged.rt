// What meld, refresh and explain ask first of a record that is well formed.
ghost use Rattle.std.specs.Prelude.{◌≡◌};
ghost use Rattle.pool.specs.Image.{Arrangement, Image, Fit, state_of};
ghost use Rattle.conflict_search.specs.Sorted.{footprint};
ghost use Rattle.judge.specs.Judged.{unsearched, judged_of, named_in};

use conflict_search::{Footprint, Searched, conflict};
use nodes::read_header;
use record::Answer;

#[derive(Clone, Copy)]
pub struct Judged {
    // 5, 2, 1, or 0 where none of them applies.
    pub answer: Answer,
    // The looks of the conflict walk; 0 where it was not made.
    pub looks: u32,
}

#[derive(Clone, Copy)]
pub struct Named {
    pub judged: Judged,
    // With 1 the number of the leaf that is the conflict, else none.
    pub leaf: Option<u32>,
}

// An answer given before the search.
fn refused(answer: Answer) -> Named
    ensures { result ≡ unsearched answer }
{
    Named {
        judged: Judged { answer, looks: 0 },
        leaf: None,
    }
}

// Judges a snapshot and a footprint by the state that a fit pool means, and names the leaf that is the conflict.
pub fn judge_and_name(pool: &[u8], snapshot: u32, lists: &Footprint<'_>) -> Named
    requires { Fit pool.now }
    ensures { (A : Arrangement) → Image pool.now A → result ≡ named_in A snapshot (footprint lists.now.keys.now lists.now.lows.now lists.now.highs.now) }
{
    let h = read_header(pool);
    if h.position < snapshot {
        return refused(Answer::AHEAD);
    }
    if h.zone < h.position - snapshot {
        return refused(Answer::TOO_OLD);
    }
    let Searched { leaf, looks } = conflict(pool, snapshot, lists);
    if leaf.is_some() {
        return Named {
            judged: Judged {
                answer: Answer::CONFLICT,
                looks,
            },
            leaf,
        };
    }
    Named {
        judged: Judged {
            answer: Answer::COMMITTED,
            looks,
        },
        leaf: None,
    }
}

// The same without the leaf.
pub fn judge(pool: &[u8], snapshot: u32, lists: &Footprint<'_>) -> Judged
    requires { Fit pool.now }
    ensures { (A : Arrangement) → Image pool.now A → result ≡ judged_of (state_of A) snapshot (footprint lists.now.keys.now lists.now.lows.now lists.now.highs.now) }
{
    judge_and_name(pool, snapshot, lists).judged
}
