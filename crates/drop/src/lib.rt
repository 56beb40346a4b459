#![tactic(auto)]

// Old tombstones: how many there are, and dropping them.
pub mod count;
pub mod tombstones;

pub use count::count_old;
pub use tombstones::drop_old;
