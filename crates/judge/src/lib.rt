#![tactic(auto)]

// Rows 5, 2 and 1: whether a record is ahead, too old or in conflict with a fit pool, and with which leaf of it.
pub mod judged;

pub use judged::{Judged, Named, judge, judge_and_name};
