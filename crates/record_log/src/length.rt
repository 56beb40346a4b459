// The range that a record's length lies in.
ghost use Rattle.std.specs.Prelude.{◌≡◌};
ghost use Rattle.record_log.specs.Log.{impossible};

use record::limits::{MAX_LENGTH, MIN_LENGTH};

// Whether no record has this length.
pub fn is_impossible(length: usize) -> bool
    ensures { result ≡ impossible length }
{
    !(MIN_LENGTH..=MAX_LENGTH).contains(&length)
}
