#![tactic(auto)]

// THE RECORD PART, lower half: the names of the answers, points and scans, the check of a record's bytes, and the reader.
// Nothing here knows of a pool or a tree.
pub mod answer;
mod checker;
mod item;
pub mod limits;
pub mod point;
mod reader;

pub use answer::Answer;
pub use checker::{Head, check, head_of, head_size, is_large, point_at, scan_at, version_for};
pub use item::Item;
pub use point::{Point, Scan};
pub use reader::{Reading, read};
