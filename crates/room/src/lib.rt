#![tactic(auto)]

// Row 3: whether a record's writes find room, and whether old tombstones must go first.
pub mod room;
mod tally;

pub use room::{Room, room_for};
