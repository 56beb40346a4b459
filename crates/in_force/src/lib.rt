#![tactic(auto)]

// The record in force after a refresh: the original or the refreshed one, as a part of the slice that was lent.
ghost use Rattle.in_force.specs.InForce.{InForce};

use record::Answer;
use record_log::{Cut, cut};

// The original after 5; after 0 the record at the front of the refreshed buffer if the log rule finds one there;
// in every other case the empty part at the original's start.
#[tactic(auto, unfolding(crate::specs::InForce::source_of))]
pub fn in_force<'a>(answer: Answer, original: &'a [u8], refreshed: &'a [u8]) -> &'a [u8]
    ensures { InForce answer original.entry refreshed.entry result }
{
    if answer == Answer::AHEAD {
        return original;
    }
    if answer != Answer::COMMITTED {
        return &original[..0];
    }
    let Cut::Record(next) = cut(refreshed, 0) else {
        return &original[..0];
    };
    &refreshed[..next]
}
