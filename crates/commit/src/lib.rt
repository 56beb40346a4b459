#![tactic(auto)]

// What a committed record leaves in a fit pool: the position moved on, old tombstones dropped if they must, and the writes.
mod apply;
pub mod commit;

pub use commit::{commit_after_drop, commit_writes};
