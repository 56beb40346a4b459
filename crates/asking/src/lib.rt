#![tactic(auto)]

// WHAT THE PROGRAM `explain` DOES (R52), but for its words: the number that an argument gives, the record at a position of a log, and what
// explaining it tells. A log is read through a window that holds one record at a time, whatever the log's length.
pub mod digits;
pub mod flaws;
pub mod line;
pub mod seeking;
pub mod telling;
pub mod touching;
pub mod window;

pub use digits::decimal;
pub use flaws::{Flaw, Wrong, find_flaw};
pub use line::{Numbers, numbers_of};
pub use seeking::ask;
pub use telling::{Told, Unread, tell};
pub use touching::{Named, named_by};
