#![tactic(auto)]

// WHAT THE PROGRAMS PRINT: a line for each whole record of a log, and the line that ends a log. Everything goes to an `Output`, which keeps the
// first failure to print. What the lines say is computed by `open`, `feed_part` and `finish`; the printing functions only print what they are given.
pub mod opening;
pub mod output;
pub mod parts;
pub mod printing;

pub use opening::{HEAD, open};
pub use output::Output;
pub use parts::{Going, feed_part, finish};
pub use printing::{Line, ending_answer, print_answer, print_ending, print_line};
